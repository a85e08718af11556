//! The labels that are proposed.
ghost use Rattle.std.specs.Prelude.{◌≡◌, length, IfOk};
ghost use Rattle.comm_sequence.specs.Labels.{IsProposal};

use crate::order::order_of;
use crate::ranks::{keys_of, ranks};
use comm_sequence::Seqs;
use std::alloc::Global;
use sys_base::Memory;

/// The label that is proposed for each message, at the message's index: how many different keys are below its own
/// (`docs/model.md`, "Labels").
///
/// `count` is the number of messages of `seqs`, at most 512. Each label is below `count`, so labels are 0 to 511. The
/// only error is want of memory, which may come for any `seqs`.
///
/// The key of a message has two numbers, and the first counts more: how many messages must come no later than
/// it, and the least of those that must come no later than it and no earlier. A message must come no later than
/// itself, and than those to which a chain of neighbours in the lists leads from it.
///
/// Beyond one pass over the lists the time is cubic in the number of messages, but with 64 of them to a step: at most
/// two million steps for 512 messages.
pub fn propose(alloc: Global, seqs: &Seqs, count: u16) -> Result<Vec<u16>, Memory>
    requires { count ≡ length seqs.now.ends }
    ensures { IfOk result (λ labels. IsProposal seqs.now.lists count labels.items) }
{
    let sets = order_of(alloc, seqs, count)?;
    let keys = keys_of(alloc, &sets)?;
    ranks(alloc, &keys)
}

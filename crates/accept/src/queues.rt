//! The groups of the links, and the first that has more members than its link has queues.
ghost use Rattle.std.specs.Prelude.{◌≡◌, ◌*◌, ◌<◌, [], length, map, All, IfOk, IfErr};
ghost use Rattle.sys_base.specs.Grid.{cell_count};
ghost use Rattle.cell_types.specs.Groups.{lengths_of};
ghost use Rattle.cell_types.specs.Typed.{plain};
ghost use Rattle.comm_sequence.specs.Sequences.{sequences_of};
ghost use Rattle.queue_plan.specs.Grouping.{all_groups};
ghost use Rattle.accept.specs.bodies.Answers.{AreKnown, IsFound, members_at};
ghost use Rattle.accept.specs.FirstRefusal.{HasTooFewQueues};
ghost use Rattle.accept.specs.Labelled.{AreLabels, lacks_of};
ghost use Rattle.accept.specs.Told.{lack_refusal, message_name};

use crate::building::AcceptError;
use cell_types::Program;
use comm_sequence::Seqs;
use queue_plan::{Groups, Lack, group};
use refusals::Refusal;
use std::alloc::Global;
use sys_base::{Items, Memory, Name};

/// The groups of the links, each with at most as many members as its link has queues; or the refusal of the first that
/// has more.
pub fn fitting_groups(
    alloc: Global,
    program: &Program,
    seqs: &Seqs,
    labels: &[u16],
) -> Result<Groups, AcceptError>
    requires seqs { seqs.now ≡ sequences_of (plain program.now) }
    requires labels { AreLabels (plain program.now) labels.now }
    requires each { length labels.now ≡ length program.now.messages }
    ensures groups { IfOk result (λ groups.
        groups ≡ all_groups (plain program.now) labels.now (lengths_of (plain program.now))) }
    ensures enough { IfOk result (λ groups. lacks_of (plain program.now) labels.now ≡ []) }
    ensures refused { IfErr result (IsFound HasTooFewQueues (plain program.now)) }
{
    let groups = link_groups(alloc, program, seqs, labels)?;
    match groups.lack(program) {
        None => Ok(groups),
        Some(lack) => Err(AcceptError::Refused(lack_refusal(alloc, program, &groups, lack)?)),
    }
}

/// The groups of the links.
pub fn link_groups(
    alloc: Global,
    program: &Program,
    seqs: &Seqs,
    labels: &[u16],
) -> Result<Groups, Memory>
    requires seqs { seqs.now ≡ sequences_of (plain program.now) }
    requires each { length labels.now ≡ length program.now.messages }
    ensures groups { IfOk result (λ groups.
        groups ≡ all_groups (plain program.now) labels.now (lengths_of (plain program.now))) }
    ensures links { IfOk result (λ groups. length groups ≡ length program.now.queues) }
{
    group(alloc, program, labels, &lengths(alloc, seqs)?)
}

/// The length of each message.
fn lengths(alloc: Global, seqs: &Seqs) -> Result<Vec<u32>, Memory>
    ensures { IfOk result (λ lengths. lengths.items ≡ seqs.now.lengths) }
{
    let mut lengths = Vec::new(alloc);
    for message in 0..seqs.messages() {
        lengths.push(seqs.length(message))?;
    }
    Ok(lengths)
}

/// The refusal of a lack.
fn lack_refusal(
    alloc: Global,
    program: &Program,
    groups: &Groups,
    lack: Lack,
) -> Result<Refusal, Memory>
    requires link { lack.link < 4 * cell_count program.now.grid }
    requires links { length groups.now ≡ 4 * cell_count program.now.grid }
    requires known { AreKnown groups.now lack.link (length program.now.messages) }
    ensures { IfOk result (λ r.
        r ≡ lack_refusal (plain program.now) lack (members_at groups.now lack.link lack.label)) }
{
    let members = members_of(groups, lack.link, lack.label);
    Ok(Refusal::TooFew {
        link: program.grid().link_name(lack.link),
        label: lack.label,
        need: lack.need,
        has: lack.has,
        group: names_of(alloc, program, members)?,
    })
}

/// The members of the group with this label on a link, none where it has no such group.
fn members_of<'a>(groups: &'a Groups, link: u16, label: u16) -> &'a [u16]
    requires { link < length groups.now }
    ensures { result.now ≡ members_at groups.now link label }
{
    let mut place = 0;
    while let Some(other) = groups.label(link, place) {
        if other == label {
            return groups.members(link, place);
        }
        place += 1;
    }
    &[]
}

/// The names of messages, by their indices.
fn names_of(alloc: Global, program: &Program, messages: &[u16]) -> Result<Items<Name>, Memory>
    requires { All (λ message. message < length program.now.messages) messages.now }
    ensures { IfOk result (λ names. names ≡ map (message_name (plain program.now)) messages.now) }
{
    let mut names = Items::new(alloc);
    for message in messages {
        names.push(program.messages()[usize::from(*message)].name.copy()?)?;
    }
    Ok(names)
}

//! How often each message is read.
ghost use Rattle.std.specs.Prelude.{◌≡◌, ◌+◌, ◌<◌, ◌≤◌, ◌^◌, ℕ, length, slice_index, All, EachIndex, IfOk};
ghost use Rattle.comm_sequence.specs.BufferedOrder.{occurrences};
ghost use Rattle.comm_sequence.specs.Sequences.{message_of};
ghost use Rattle.comm_sequence.specs.declared.comm.Comm.TheVariants.{Read};
ghost use Rattle.crossing_off.specs.Greedy.{reads_of};

use comm_sequence::{Comm, Cursor, Seqs};
use std::alloc::Global;
use sys_base::Memory;

/// How often each message is read in the list of its receiver.
pub(crate) fn wanted_of(alloc: Global, seqs: &Seqs) -> Result<Vec<u32>, Memory>
    ensures len { IfOk result (λ wanted. length wanted.items ≡ length seqs.now.ends) }
    ensures reads { IfOk result (λ wanted.
        EachIndex wanted.items (λ m. slice_index wanted.items m ≡ reads_of seqs.now m)) }
{
    let mut wanted = vec![in alloc; 0u32; usize::from(seqs.messages())]?;
    for cell in 0..seqs.cells() {
        count_reads(&mut wanted, seqs.cursor(cell));
    }
    Ok(wanted)
}

/// Adds for each message how often a list reads it.
fn count_reads(wanted: &mut [u32], mut list: Cursor<'_>)
    requires messages { All (λ comm. message_of comm < length wanted.old) list }
    requires room { EachIndex wanted.old (λ m. slice_index wanted.old m + length list < 2 ^ 32) }
    ensures { EachIndex wanted.old (λ m.
        slice_index wanted.new m ≡ slice_index wanted.old m + occurrences (Read m) list.entry) }
{
    while let Some(operation) = list.next() {
        if let Comm::Read(message) = operation {
            wanted[usize::from(message)] += 1;
        }
    }
}

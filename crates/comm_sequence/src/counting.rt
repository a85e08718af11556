ghost use Rattle.std.specs.Prelude.{◌≡◌, ◌<◌, ◌^◌, [], ◌∷◌, length, All};
ghost use Rattle.cell_types.specs.Communications.{times};
ghost use Rattle.comm_sequence.specs.Parts.{communication, part_unrolled, unrolled};
ghost use Rattle.comm_sequence.specs.bodies.Unrolling.{communication_of};
ghost use Rattle.comm_sequence.specs.bodies.Walking.{CanAdd, HasAdded, IsFull};

use crate::comm::Comm;
use crate::entry::Entry;
use crate::part::Part;

/// How often a communication stands among those of parts.
#[cycle(counting)]
pub(crate) fn count(parts: &[Part], entry: Entry) -> u32
    requires { length (unrolled parts.now) < 2 ^ 32 }
    ensures { result ≡ times (communication_of entry) (unrolled parts.now) }
{
    let mut count = 0;
    for part in parts {
        count += count_part(part, entry);
    }
    count
}

/// How often a communication stands among those of a part.
#[cycle(counting)]
fn count_part(part: &Part, entry: Entry) -> u32
    requires { length (part_unrolled part.now) < 2 ^ 32 }
    ensures { result ≡ times (communication_of entry) (part_unrolled part.now) }
{
    match part {
        Part::One(operation) => u32::from(entry.is_same(Entry::of(*operation))),
        Part::Take => u32::from(entry.is_same(Entry::Take)),
        Part::Emit => u32::from(entry.is_same(Entry::Emit)),
        Part::Repeat { turns, parts } => {
            if *turns == 0 {
                return 0;
            }
            *turns * count(parts.as_slice(), entry)
        }
    }
}

/// Adds for each message how often so many turns of parts write it.
#[cycle(adding)]
pub(crate) fn add_writes(parts: &[Part], turns: u32, lengths: &mut [u32])
    requires room { CanAdd lengths.old turns (unrolled parts.now) }
    requires full { All IsFull parts.now }
    ensures { HasAdded lengths.old lengths.new turns (unrolled parts.now) }
{
    for part in parts {
        add_writes_of(part, turns, lengths);
    }
}

/// Adds for each message how often so many turns of a part write it.
#[cycle(adding)]
fn add_writes_of(part: &Part, turns: u32, lengths: &mut [u32])
    requires room { CanAdd lengths.old turns (part_unrolled part.now) }
    requires full { IsFull part.now }
    ensures { HasAdded lengths.old lengths.new turns (part_unrolled part.now) }
{
    match part {
        Part::One(operation) => add_write(*operation, turns, lengths),
        Part::Take => (),
        Part::Emit => (),
        Part::Repeat {
            turns: inner,
            parts,
        } => add_writes(parts.as_slice(), turns * *inner, lengths),
    }
}

/// Adds so many turns to the length of the message that an operation writes, if it writes one.
fn add_write(operation: Comm, turns: u32, lengths: &mut [u32])
    requires { CanAdd lengths.old turns (communication operation ∷ []) }
    ensures { HasAdded lengths.old lengths.new turns (communication operation ∷ []) }
{
    if let Comm::Write(message) = operation {
        lengths[usize::from(message)] += turns;
    }
}

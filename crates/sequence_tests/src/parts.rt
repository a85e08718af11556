//! Sequences of two cells, of parts that are written by hand.
ghost use Rattle.std.specs.Prelude.{◌≡◌, ◌+◌, ◌*◌, ◌^◌, ◌<◌, ◌≤◌, [], length, slice_index_or, All, IfOk};
ghost use Rattle.std.specs.List.{AllPass};
ghost use Rattle.sys_base.specs.Communications.{copies};
ghost use Rattle.sys_base.specs.declared.limits.TheConstants.{MESSAGES};
ghost use Rattle.comm_sequence.specs.Parts.{communication, part_loops, part_unrolled, unrolled, loops};
ghost use Rattle.sequence_tests.specs.Exchange.{receives, sends};

use comm_sequence::Comm::{self, Read, Write};
use comm_sequence::{Part, Seqs};
use std::alloc::Global;
use std::test::Fail;
use sys_base::Memory;

/// A loop.
fn repeat(turns: u32, parts: Vec<Part>) -> Part
    ensures list { part_unrolled result ≡ copies turns (unrolled parts.items) }
    ensures deep { part_loops result ≡ 1 + loops parts.items }
{
    Part::Repeat { turns, parts }
}

/// A list of one part.
fn single(alloc: Global, part: Part) -> Result<Vec<Part>, Memory>
    ensures list { IfOk result (λ parts. unrolled parts.items ≡ part_unrolled part) }
    ensures deep { IfOk result (λ parts. loops parts.items ≡ part_loops part) }
{
    let mut parts = Vec::new(alloc);
    parts.push(part)?;
    Ok(parts)
}

/// One operation in a loop inside a loop.
fn nested(alloc: Global, operation: Comm, outer: u32, inner: u32) -> Result<Vec<Part>, Memory>
    ensures list { IfOk result (λ parts. All (λ c. c ≡ communication operation) (unrolled parts.items)) }
    ensures long { IfOk result (λ parts. length (unrolled parts.items) ≡ outer * inner) }
    ensures deep { IfOk result (λ parts. loops parts.items ≡ 2) }
{
    let one = single(alloc, Part::One(operation))?;
    let body = single(alloc, repeat(inner, one))?;
    single(alloc, repeat(outer, body))
}

/// The sequences of a cell that sends so many messages and of a cell that receives them.
fn exchange(
    alloc: Global,
    sender: Vec<Part>,
    receiver: Vec<Part>,
    messages: u16,
) -> Result<Seqs, Memory>
    requires messages { messages ≤ MESSAGES }
    requires sends { AllPass (sends messages) (unrolled sender.items) }
    requires receives { AllPass (receives messages) (unrolled receiver.items) }
    requires few { length (unrolled sender.items) + length (unrolled receiver.items) < 2 ^ 32 }
    requires sender_loops { loops sender.items ≤ 16 }
    requires receiver_loops { loops receiver.items ≤ 16 }
    ensures cells { IfOk result (λ seqs. length seqs.lists ≡ 2) }
    ensures messages { IfOk result (λ seqs. length seqs.ends ≡ messages) }
{
    let mut cells = Vec::new(alloc);
    cells.push(sender)?;
    cells.push(receiver)?;
    let ends = vec![in alloc; (0u16, 1u16); usize::from(messages)]?;
    Seqs::of(alloc, cells, ends)
}

/// The writes and reads of a cell.
fn list_of(alloc: Global, seqs: &Seqs, cell: u16) -> Result<Vec<Comm>, Memory>
    requires { cell < length seqs.now.lists }
    ensures { IfOk result (λ list. list.items ≡ slice_index_or seqs.now.lists cell []) }
{
    let mut cursor = seqs.cursor(cell);
    let mut list = Vec::new(alloc);
    while let Some(operation) = cursor.next() {
        list.push(operation)?;
    }
    Ok(list)
}

/// The sequences of a cell that sends two words of message 0, both of which it takes, and then a word of message 1,
/// and of a cell that receives the word of message 1 first, and emits the others.
fn two_messages(alloc: Global) -> Result<Seqs, Memory>
    ensures cells { IfOk result (λ seqs. length seqs.lists ≡ 2) }
    ensures messages { IfOk result (λ seqs. length seqs.ends ≡ 2) }
{
    let sent = Vec::from_array(alloc, [Part::Take, Part::One(Write(0))])?;
    let sender = Vec::from_array(alloc, [repeat(2, sent), Part::One(Write(1))])?;
    let received = Vec::from_array(alloc, [Part::One(Read(0)), Part::Emit])?;
    let receiver = Vec::from_array(alloc, [Part::One(Read(1)), repeat(2, received)])?;
    exchange(alloc, sender, receiver, 2)
}

#[test]
fn parts_are_lists(rt: HostRuntime) -> Result<(), Fail> {
    let alloc = rt.alloc();
    let seqs = two_messages(alloc)?;
    assert_eq!(rt; (seqs.cells(), seqs.messages()), (2, 2));
    assert_eq!(rt; (seqs.length(0), seqs.length(1)), (2, 1));
    assert_eq!(rt; (seqs.takes(0), seqs.takes(1)), (2, 0));
    assert_eq!(rt; (seqs.emits(0), seqs.emits(1)), (0, 2));
    assert_eq!(rt; seqs.ends(1), (0, 1));
    let writes = list_of(alloc, &seqs, 0)?;
    assert_eq!(rt;
        writes.as_slice(),
        [Write(0), Write(0), Write(1)].as_slice()
    );
    let reads = list_of(alloc, &seqs, 1)?;
    assert_eq!(rt; reads.as_slice(), [Read(1), Read(0), Read(0)].as_slice());
    Ok(())
}

#[test]
fn empty_loops_are_passed(rt: HostRuntime) -> Result<(), Fail> {
    let alloc = rt.alloc();
    let empty = repeat(3, Vec::new(alloc));
    let sender = Vec::from_array(alloc, [empty, Part::One(Write(0))])?;
    let seqs = exchange(alloc, sender, Vec::new(alloc), 1)?;
    let mut cursor = seqs.cursor(0);
    assert_eq!(rt; cursor.next(), Some(Write(0)));
    assert_eq!(rt; cursor.next(), None);
    Ok(())
}

#[test]
fn loops_are_not_unrolled(rt: HostRuntime) -> Result<(), Fail> {
    let alloc = rt.alloc();
    let sender = nested(alloc, Write(0), 65_535, 32_767)?;
    let receiver = nested(alloc, Read(0), 65_535, 32_767)?;
    let seqs = exchange(alloc, sender, receiver, 1)?;
    assert_eq!(rt; seqs.length(0), 2_147_385_345);
    assert_eq!(rt; seqs.cursor(0).next(), Some(Write(0)));
    Ok(())
}

//! Labels of worked sources.
use cell_lexer::tokens;
use cell_parser::parse;
use cell_types::resolve;
use comm_sequence::{Seqs, cost, sequences};
use labelling::{Fall, check, propose};
use std::alloc::Global;
use std::test::Fail;

/// What the cells of a source communicate.
fn communicated(alloc: Global, source: &[u8]) -> Result<Seqs, Fail> {
    if source.len() > 1_048_576 {
        return Err("too long".into());
    }
    let found = tokens(alloc, source)?;
    let program = resolve(alloc, parse(alloc, source, &found)?)?;
    if cost(&program).is_none() {
        return Err("too many steps".into());
    }
    Ok(sequences(alloc, &program)?)
}

/// The messages below a number.
fn below(alloc: Global, count: u16) -> Result<Vec<u16>, Fail> {
    let mut messages = Vec::new(alloc);
    for message in 0..count {
        messages.push(message)?;
    }
    Ok(messages)
}

/// Adds for each message its name of three digits between two texts.
fn each(source: &mut Vec<u8>, before: &[u8], messages: &[u16], after: &[u8]) -> Result<(), Fail> {
    for message in messages {
        source.extend_from_slice(before)?;
        source.push(b'0' + (*message / 100 % 10) as u8)?;
        source.push(b'0' + (*message / 10 % 10) as u8)?;
        source.push(b'0' + (*message % 10) as u8)?;
        source.extend_from_slice(after)?;
    }
    Ok(())
}

/// Two cells that exchange words of so many messages in this order, each word written by the one and read by the other.
fn exchange(alloc: Global, count: u16, order: &[u16]) -> Result<Seqs, Fail> {
    let mut source = Vec::from_slice(alloc, b"array 1 x 2; queues 32; ")?;
    let all = below(alloc, count)?;
    each(&mut source, b"message M", &all, b" from 0.0 to 0.1; ")?;
    source.extend_from_slice(b"cell 0.0 { ")?;
    each(&mut source, b"write M", order, b" 1; ")?;
    source.extend_from_slice(b"} cell 0.1 { var x; ")?;
    each(&mut source, b"read M", order, b" x; ")?;
    source.push(b'}')?;
    communicated(alloc, &source)
}

/// The labels that are proposed where so many messages are exchanged in this order.
fn proposed(alloc: Global, count: u16, order: &[u16]) -> Result<Vec<u16>, Fail> {
    let seqs = exchange(alloc, count, order)?;
    Ok(propose(alloc, &seqs, seqs.messages())?)
}

/// The first fall of labels where so many messages are exchanged in this order.
fn fall(alloc: Global, count: u16, order: &[u16], labels: &[u16]) -> Result<Option<Fall>, Fail> {
    let seqs = exchange(alloc, count, order)?;
    if labels.len() != usize::from(seqs.messages()) {
        return Err("a message without a label".into());
    }
    Ok(check(&seqs, labels))
}

#[test]
fn later_messages_have_greater_labels(rt: HostRuntime) -> Result<(), Fail> {
    let alloc = rt.alloc();
    assert_eq!(rt;
        proposed(alloc, 2, &[0, 0, 1])?.as_slice(),
        [0, 1].as_slice()
    );
    // Each comes before the other.
    assert_eq!(rt;
        proposed(alloc, 2, &[0, 1, 0])?.as_slice(),
        [0, 0].as_slice()
    );
    // Two such pairs, one behind the other.
    assert_eq!(rt;
        proposed(alloc, 4, &[0, 1, 0, 2, 3, 2])?.as_slice(),
        [0, 0, 1, 1].as_slice()
    );
    // The order of the messages is another one.
    assert_eq!(rt;
        proposed(alloc, 3, &[2, 1, 0])?.as_slice(),
        [2, 1, 0].as_slice()
    );
    // Messages without words have labels of their own.
    assert_eq!(rt; proposed(alloc, 2, &[0])?.as_slice(), [0, 1].as_slice());
    assert_eq!(rt; proposed(alloc, 2, &[])?.as_slice(), [0, 1].as_slice());
    Ok(())
}

#[test]
fn chain_of_messages_has_rising_labels(rt: HostRuntime) -> Result<(), Fail> {
    let alloc = rt.alloc();
    let all = below(alloc, 512)?;
    assert_eq!(rt; proposed(alloc, 512, &all)?.as_slice(), all.as_slice());
    Ok(())
}

#[test]
fn first_fall_is_found(rt: HostRuntime) -> Result<(), Fail> {
    let alloc = rt.alloc();
    let back = Fall {
        cell: 0,
        at: 2,
        before: 1,
        after: 0,
    };
    assert_eq!(rt; fall(alloc, 2, &[0, 1, 0], &[0, 1])?, Some(back));
    let down = Fall {
        cell: 0,
        at: 2,
        before: 0,
        after: 1,
    };
    assert_eq!(rt; fall(alloc, 2, &[0, 0, 1], &[2, 1])?, Some(down));
    assert_eq!(rt; fall(alloc, 2, &[0, 1, 0], &[1, 1])?, None);
    // A message without words stands next to none.
    assert_eq!(rt; fall(alloc, 3, &[0, 1], &[0, 1, 0])?, None);
    Ok(())
}

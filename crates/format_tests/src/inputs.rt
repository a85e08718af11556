//! The input of a run.
use std::alloc::Global;
use std::test::Fail;
use stream_io::{InputError, read_inputs};
use sys_base::{Grid, Inputs, Items};

/// The rule that a file breaks, and the number that goes with it.
fn rule_of(error: &InputError) -> (&'static str, usize) {
    match error {
        InputError::NotJson => ("not JSON", 0),
        InputError::NotObject => ("not an object", 0),
        InputError::UnknownCell { key } => ("not a cell", key.len()),
        InputError::NotList { key } => ("not a list", key.len()),
        InputError::NotInteger { key: _, at } => ("no integer", *at as usize),
        InputError::Count {
            cell: _,
            need: _,
            has,
        } => ("count", *has as usize),
        InputError::Memory => ("out of memory", 0),
    }
}

/// The rule that a text breaks as the input of a row of cells that take so many words.
fn rule(alloc: Global, takes: &[u32], text: &[u8]) -> (&'static str, usize) {
    let Some(grid) = Grid::new(1, takes.len() as u64) else {
        return ("no grid", 0);
    };
    if usize::from(grid.cells()) != takes.len() {
        return ("no grid", 0);
    }
    match read_inputs(alloc, text, &grid, takes) {
        Ok(_) => ("none", 0),
        Err(error) => rule_of(&error),
    }
}

/// The rule that a text breaks as the input of three cells in a row, the first of which takes four words.
fn rule_of_three(alloc: Global, text: &[u8]) -> (&'static str, usize) {
    rule(alloc, &[4, 0, 0], text)
}

#[test]
fn counts_and_shapes(rt: HostRuntime) {
    let table: [(&[u8], (&'static str, usize)); 9] = [
        (b"{\"0.0\":[1,0,0,0]}", ("none", 0)),
        (b"{\"0.0\":[1,0,0]}", ("count", 3)),
        (b"{\"0.0\":[1,0,0,0,0]}", ("count", 5)),
        (b"{}", ("count", 0)),
        (b"{\"0.0\":[1,0.5,0,0]}", ("no integer", 1)),
        (b"[]", ("not an object", 0)),
        (b"{\"1.0\":[]}", ("not a cell", 3)),
        (b"{\"0.00\":[]}", ("not a cell", 4)),
        (b"{\"0.0\":5}", ("not a list", 3)),
    ];
    for (text, wanted) in table {
        assert!(rt; rule_of_three(rt.alloc(), text) == wanted, "{text:?}");
    }
}

#[test]
fn other_bytes_are_not_json(rt: HostRuntime) {
    let table: [&[u8]; 7] = [
        b"",
        b"\xff",
        b"\xef\xbb\xbf{}",
        b"{} {}",
        b"{\"\\ud800\":[]}",
        b"{\"0.0\":[1e400]}",
        b"{\"\n\":[]}",
    ];
    for text in table {
        assert!(rt; rule_of_three(rt.alloc(), text).0 == "not JSON", "{text:?}");
    }
}

#[test]
fn floats_and_wide_numbers_are_no_integers(rt: HostRuntime) {
    let table: [(&[u8], usize); 5] = [
        (b"{\"0.0\":[9223372036854775808]}", 0),
        (b"{\"0.0\":[-9223372036854775808,-9223372036854775809]}", 1),
        (b"{\"0.0\":[0,-0]}", 1),
        (b"{\"0.0\":[1.0]}", 0),
        (b"{\"0.0\":[1e2]}", 0),
    ];
    for (text, at) in table {
        assert!(rt;
            rule_of_three(rt.alloc(), text) == ("no integer", at),
            "{text:?}"
        );
    }
}

#[test]
fn keys_are_tried_in_byte_order(rt: HostRuntime) {
    let takes = [0; 11];
    let table: [(&[u8], (&'static str, usize)); 3] = [
        (b"{\"0.2\":0,\"0.10\":0}", ("not a list", 4)),
        (b"{\"0.2\":0,\"0.10\":[true]}", ("no integer", 0)),
        (b"{\"0.2\":[],\"0.11\":0,\"0.10\":[7]}", ("not a cell", 4)),
    ];
    for (text, wanted) in table {
        assert!(rt; rule(rt.alloc(), &takes, text) == wanted, "{text:?}");
    }
}

/// So many brackets that open, and as many that close.
fn nested(alloc: Global, levels: u8) -> Result<Vec<u8>, Fail> {
    let mut text = Vec::new(alloc);
    for _ in 0..levels {
        text.push(b'[')?;
    }
    for _ in 0..levels {
        text.push(b']')?;
    }
    Ok(text)
}

#[test]
fn reads_127_levels(rt: HostRuntime) -> Result<(), Fail> {
    for (levels, wanted) in [(127, "not an object"), (128, "not JSON")] {
        let text = nested(rt.alloc(), levels)?;
        assert!(rt; rule_of_three(rt.alloc(), text.as_slice()).0 == wanted);
    }
    Ok(())
}

/// The words of one cell that takes two.
fn words(alloc: Global, text: &[u8]) -> Result<Items<i64>, Fail> {
    let grid = Grid::new(1, 1).ok_or("no grid")?;
    if grid.cells() != 1 {
        return Err("no cell".into());
    }
    match read_inputs(alloc, text, &grid, &[2]) {
        Ok(inputs) => first(inputs),
        Err(_) => Err("refused".into()),
    }
}

/// The words of the first cell.
fn first(inputs: Inputs) -> Result<Items<i64>, Fail> {
    match inputs.cells.into_vec().pop() {
        Some(words) => Ok(words),
        None => Err("no list".into()),
    }
}

#[test]
fn tells_words(rt: HostRuntime) -> Result<(), Fail> {
    let table: [(&[u8], [i64; 2]); 3] = [
        (
            b"{\"0.0\":[-9223372036854775808,9223372036854775807]}",
            [-9223372036854775808, 9223372036854775807],
        ),
        (b"{\"0.0\":[1],\"0.0\":[2,3]}", [2, 3]),
        (b"{\"\\u0030.0\":[4,5]}", [4, 5]),
    ];
    for (text, wanted) in table {
        let found = words(rt.alloc(), text)?;
        assert!(rt; found.as_slice() == wanted.as_slice(), "{text:?}");
    }
    Ok(())
}

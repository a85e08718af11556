use refusals::{Refusal, Twice, WalkLine, explain, text};
use std::alloc::{AllocGlobal, Global};
use std::process::Abort;
use std::test::Fail;
use sys_base::{CellName, Dir, Items, Limit, LinkName, Name};

fn name(alloc: Global, text: &[u8]) -> Result<Name, Fail> {
    let name = Name::new(alloc, text)?.ok_or("no name")?;
    Ok(name)
}

/// A cell in row 0.
fn cell(col: u8) -> CellName {
    CellName { row: 0, col }
}

/// The link from the cell 0.0 to the cell 0.1.
fn east() -> LinkName {
    LinkName {
        cell: cell(0),
        dir: Dir::E,
    }
}

/// The refusal has this line.
fn expect<R: Abort + AllocGlobal>(rt: &R, refusal: Refusal, line: &str) -> Result<(), Fail> {
    let text = text(rt.alloc(), &refusal)?;
    assert_eq!(rt; text.as_slice(), line.as_bytes());
    Ok(())
}

#[test]
fn the_text_of_a_source(rt: HostRuntime) -> Result<(), Fail> {
    let at = 40;
    expect(
        &rt,
        Refusal::BadByte { at },
        "E01 byte at 40 is not part of the language",
    )?;
    let (line, column) = (3, 12);
    expect(
        &rt,
        Refusal::Unexpected { line, column },
        "E02 line 3 column 12: not expected here",
    )?;
    let big = "E03 line 3: the number is more than 9223372036854775807";
    expect(&rt, Refusal::BigNumber { line }, big)?;
    expect(
        &rt,
        Refusal::LongName { line },
        "E04 line 3: the name has more than 32 bytes",
    )?;
    expect(
        &rt,
        Refusal::LongSource,
        "E05 the source has more than 1048576 bytes",
    )?;
    let piece = "E06 line 3: more than 256 tokens without ; { or }";
    expect(&rt, Refusal::LongPiece { line }, piece)?;
    expect(
        &rt,
        Refusal::Braces { line },
        "E07 line 3: more than 17 braces are open",
    )
}

#[test]
fn limits(rt: HostRuntime) -> Result<(), Fail> {
    let table = [
        (Limit::Rows, "E10 line 1: rows are 1 to 16"),
        (Limit::Columns, "E10 line 1: columns are 1 to 16"),
        (Limit::Queues, "E10 line 1: queues are 1 to 32"),
        (Limit::Messages, "E10 line 1: messages are at most 512"),
        (Limit::Label, "E10 line 1: labels are 0 to 65535"),
        (
            Limit::Names,
            "E10 line 1: variables are at most 64 in a cell",
        ),
        (Limit::Words, "E10 line 1: words are 1 to 1024 in a cell"),
        (Limit::Turns, "E10 line 1: loop counts are 0 to 65535"),
        (Limit::Buffer, "E10 line 1: the buffer is 0 to 64"),
    ];
    for (limit, text) in table {
        expect(&rt, Refusal::Limit { limit, line: 1 }, text)?;
    }
    Ok(())
}

#[test]
fn declarations(rt: HostRuntime) -> Result<(), Fail> {
    let (alloc, line) = (rt.alloc(), 4);
    for (what, text) in [
        (Twice::Link(east()), "E11 line 4: 0.0E stands twice"),
        (
            Twice::Cell(CellName { row: 15, col: 2 }),
            "E11 line 4: 15.2 stands twice",
        ),
        (
            Twice::Named(name(alloc, b"A")?),
            "E11 line 4: A stands twice",
        ),
    ] {
        expect(&rt, Refusal::Twice { what, line }, text)?;
    }
    expect(
        &rt,
        Refusal::OutsideGrid { line },
        "E12 line 4: outside the grid",
    )?;
    let name = name(alloc, b"A")?;
    expect(
        &rt,
        Refusal::SelfMessage { name, line },
        "E13 line 4: A goes to its own sender",
    )
}

#[test]
fn statements(rt: HostRuntime) -> Result<(), Fail> {
    let (alloc, line) = (rt.alloc(), 5);
    let unknown = Refusal::Unknown {
        name: name(alloc, b"x")?,
        line,
    };
    expect(&rt, unknown, "E14 line 5: x is not declared")?;
    expect(
        &rt,
        Refusal::ArmsDiffer { line },
        "E15 line 5: the arms communicate differently",
    )?;
    for (sends, text) in [
        (true, "E16 line 5: cell 1.2 does not send A"),
        (false, "E16 line 5: cell 1.2 does not receive A"),
    ] {
        let wrong = Refusal::WrongEnd {
            name: name(alloc, b"A")?,
            row: 1,
            col: 2,
            sends,
            line,
        };
        expect(&rt, wrong, text)?;
    }
    for (found, text) in [
        (0, "E17 line 5: A is a message"),
        (1, "E17 line 5: A is a variable"),
        (2, "E17 line 5: A is an array"),
        (3, "E17 line 5: A is a counter"),
    ] {
        let wrong = Refusal::WrongKind {
            name: name(alloc, b"A")?,
            found,
            line,
        };
        expect(&rt, wrong, text)?;
    }
    Ok(())
}

#[test]
fn routes(rt: HostRuntime) -> Result<(), Fail> {
    let (alloc, line) = (rt.alloc(), 6);
    let leaves = Refusal::RouteLeaves {
        name: name(alloc, b"A")?,
        line,
    };
    expect(&rt, leaves, "E18 line 6: the route of A leaves the grid")?;
    let end = Refusal::RouteEnd {
        name: name(alloc, b"A")?,
        line,
    };
    expect(
        &rt,
        end,
        "E19 line 6: the route of A does not end at its receiver",
    )?;
    let twice = Refusal::RouteTwice {
        name: name(alloc, b"A")?,
        link: east(),
        line,
    };
    expect(
        &rt,
        twice,
        "E20 line 6: the route of A uses link 0.0E twice",
    )
}

#[test]
fn programs(rt: HostRuntime) -> Result<(), Fail> {
    let alloc = rt.alloc();
    let crossing = Refusal::Crossing {
        left: 4,
        walk: Items::new(alloc),
    };
    expect(&rt, crossing, "E30 crossing-off leaves 4 operations")?;
    let fall = Refusal::Fall {
        row: 0,
        col: 0,
        at: 2,
        before: name(alloc, b"A")?,
        first: 2,
        after: name(alloc, b"B")?,
        second: 1,
    };
    expect(
        &rt,
        fall,
        "E40 cell 0.0 at 2: B with label 1 follows A with label 2",
    )?;
    let some = Refusal::SomeLabels {
        name: name(alloc, b"B")?,
    };
    expect(&rt, some, "E41 B has no label and another message has one")?;
    let few = Refusal::TooFew {
        link: east(),
        label: 0,
        need: 2,
        has: 1,
        group: Items::new(alloc),
    };
    expect(&rt, few, "E50 link 0.0E label 0 needs 2 queues and has 1")?;
    expect(
        &rt,
        Refusal::CellSteps,
        "E60 the cells take more than 16777216 steps",
    )?;
    let bound = 16777217;
    expect(
        &rt,
        Refusal::Bound { bound },
        "E61 the bound 16777217 is more than 16777216",
    )
}

/// The refusal has this explanation.
fn explained<R: Abort + AllocGlobal>(rt: &R, refusal: Refusal, want: &str) -> Result<(), Fail> {
    let text = explain(rt.alloc(), &refusal)?;
    assert_eq!(rt; text.as_slice(), want.as_bytes());
    Ok(())
}

#[test]
fn a_walk_in_a_circle(rt: HostRuntime) -> Result<(), Fail> {
    let alloc = rt.alloc();
    let mut walk = Items::new(alloc);
    walk.push(WalkLine::WaitsToWrite {
        cell: cell(0),
        message: name(alloc, b"A")?,
        receiver: cell(1),
    })?;
    walk.push(WalkLine::WaitsToRead {
        cell: cell(1),
        message: name(alloc, b"B")?,
        sender: cell(0),
    })?;
    walk.push(WalkLine::Again(cell(0)))?;
    explained(
        &rt,
        Refusal::Crossing { left: 4, walk },
        "E30 crossing-off leaves 4 operations\n0.0 waits to write A to 0.1\n0.1 waits to read B from 0.0\n0.0 again\n",
    )
}

#[test]
fn a_walk_to_an_idle_cell(rt: HostRuntime) -> Result<(), Fail> {
    let alloc = rt.alloc();
    let mut walk = Items::new(alloc);
    walk.push(WalkLine::WaitsToWrite {
        cell: cell(0),
        message: name(alloc, b"A")?,
        receiver: cell(1),
    })?;
    walk.push(WalkLine::NothingLeft(cell(1)))?;
    explained(
        &rt,
        Refusal::Crossing { left: 1, walk },
        "E30 crossing-off leaves 1 operations\n0.0 waits to write A to 0.1\n0.1 has nothing left\n",
    )
}

#[test]
fn a_group(rt: HostRuntime) -> Result<(), Fail> {
    let alloc = rt.alloc();
    let mut group = Items::new(alloc);
    group.push(name(alloc, b"A")?)?;
    group.push(name(alloc, b"B")?)?;
    let few = Refusal::TooFew {
        link: east(),
        label: 0,
        need: 2,
        has: 1,
        group,
    };
    explained(
        &rt,
        few,
        "E50 link 0.0E label 0 needs 2 queues and has 1\ngroup A B\n",
    )
}

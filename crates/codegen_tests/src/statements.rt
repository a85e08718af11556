//! The code of each form of statement.
use crate::sources::first_code;
use cell_code::Instr;
use std::alloc::Global;
use std::test::Fail;
use sys_base::Op;

/// The code of these statements of a cell with one variable, one array of four elements, a message that it writes and
/// one that it reads. They begin in line 2.
fn code(alloc: Global, statements: &str) -> Result<Vec<Instr>, Fail> {
    let mut text =
        b"array 1 x 2; queues 1; message A from 0.0 to 0.1; message B from 0.1 to 0.0;".to_vec(
            alloc,
        )?;
    text.extend_from_slice(b"cell 0.0 { var x; var a[4];\n")?;
    text.extend_from_slice(statements.as_bytes())?;
    text.extend_from_slice(b"}")?;
    first_code(alloc, &text)
}

#[test]
fn values_are_stored(rt: HostRuntime) -> Result<(), Fail> {
    let alloc = rt.alloc();
    let line = 2;
    assert_eq!(rt;
        code(alloc, "x = 2 + x;")?.as_slice(),
        [
            Instr::Push(2),
            Instr::Load(0),
            Instr::Bin { op: Op::Add, line },
            Instr::Store(0),
            Instr::Halt,
        ]
        .as_slice()
    );
    assert_eq!(rt;
        code(alloc, "a[x] = 7;")?.as_slice(),
        [
            Instr::Load(0),
            Instr::Push(7),
            Instr::StoreAt {
                base: 1,
                len: 4,
                line
            },
            Instr::Halt,
        ]
        .as_slice()
    );
    assert_eq!(rt;
        code(alloc, "take x;")?.as_slice(),
        [Instr::Take(0), Instr::Halt].as_slice()
    );
    Ok(())
}

#[test]
fn words_are_communicated(rt: HostRuntime) -> Result<(), Fail> {
    let alloc = rt.alloc();
    let line = 2;
    assert_eq!(rt;
        code(alloc, "write A x;")?.as_slice(),
        [Instr::Load(0), Instr::Write(0), Instr::Halt].as_slice()
    );
    assert_eq!(rt;
        code(alloc, "read B x;")?.as_slice(),
        [
            Instr::Read {
                message: 1,
                word: 0
            },
            Instr::Halt
        ]
        .as_slice()
    );
    assert_eq!(rt;
        code(alloc, "emit -a[3];")?.as_slice(),
        [
            Instr::Push(3),
            Instr::LoadAt {
                base: 1,
                len: 4,
                line
            },
            Instr::Neg { line },
            Instr::Emit,
            Instr::Halt,
        ]
        .as_slice()
    );
    Ok(())
}

#[test]
fn loop_ends_behind_its_next(rt: HostRuntime) -> Result<(), Fail> {
    assert_eq!(rt;
        code(rt.alloc(), "for i 3 { emit i; }")?.as_slice(),
        [
            Instr::Loop {
                counter: 0,
                turns: 3,
                exit: 4
            },
            Instr::Counter(0),
            Instr::Emit,
            Instr::Next {
                counter: 0,
                turns: 3,
                body: 1
            },
            Instr::Halt,
        ]
        .as_slice()
    );
    Ok(())
}

#[test]
fn arms_are_jumped_over(rt: HostRuntime) -> Result<(), Fail> {
    let alloc = rt.alloc();
    assert_eq!(rt;
        code(alloc, "if x { emit 1; } else { emit 2; }")?.as_slice(),
        [
            Instr::Load(0),
            Instr::IfZero(5),
            Instr::Push(1),
            Instr::Emit,
            Instr::Jump(7),
            Instr::Push(2),
            Instr::Emit,
            Instr::Halt,
        ]
        .as_slice()
    );
    assert_eq!(rt;
        code(alloc, "if x { take x; } else { }")?.as_slice(),
        [
            Instr::Load(0),
            Instr::IfZero(4),
            Instr::Take(0),
            Instr::Jump(4),
            Instr::Halt,
        ]
        .as_slice()
    );
    Ok(())
}

/// An `if` in a loop of no turns in a loop, and a statement in the line behind them.
#[test]
fn statements_nest(rt: HostRuntime) -> Result<(), Fail> {
    assert_eq!(rt;
        code(
            rt.alloc(),
            "for i 2 {\nfor j 0 {\nif i < j {\nemit 1; } else { x = j; } } }\nx = 1 % x;"
        )?
        .as_slice(),
        [
            Instr::Loop {
                counter: 0,
                turns: 2,
                exit: 13
            },
            Instr::Loop {
                counter: 1,
                turns: 0,
                exit: 12
            },
            Instr::Counter(0),
            Instr::Counter(1),
            Instr::Bin {
                op: Op::Less,
                line: 4
            },
            Instr::IfZero(9),
            Instr::Push(1),
            Instr::Emit,
            Instr::Jump(11),
            Instr::Counter(1),
            Instr::Store(0),
            Instr::Next {
                counter: 1,
                turns: 0,
                body: 2
            },
            Instr::Next {
                counter: 0,
                turns: 2,
                body: 1
            },
            Instr::Push(1),
            Instr::Load(0),
            Instr::Bin {
                op: Op::Rem,
                line: 6
            },
            Instr::Store(0),
            Instr::Halt,
        ]
        .as_slice()
    );
    Ok(())
}

/// A cell that chooses between a loop and two statements.
#[test]
fn loop_in_an_arm(rt: HostRuntime) -> Result<(), Fail> {
    let text = b"array 1 x 2; queues 1; message A from 0.0 to 0.1;
cell 0.0 { if 1 { for i 2 { write A 1; } } else { write A 2; write A 3; } }
cell 0.1 { var x; for i 2 { read A x; emit x; } }";
    assert_eq!(rt;
        first_code(rt.alloc(), text)?.as_slice(),
        [
            Instr::Push(1),
            Instr::IfZero(7),
            Instr::Loop {
                counter: 0,
                turns: 2,
                exit: 6
            },
            Instr::Push(1),
            Instr::Write(0),
            Instr::Next {
                counter: 0,
                turns: 2,
                body: 3
            },
            Instr::Jump(11),
            Instr::Push(2),
            Instr::Write(0),
            Instr::Push(3),
            Instr::Write(0),
            Instr::Halt,
        ]
        .as_slice()
    );
    Ok(())
}

//! What runs record, emit and come to.
use crate::running::{Outcome, run};
use crate::table::Table;
use array_drive::Driven;
use schedules::{Chooser, High, Low, Round, Seeded};
use std::alloc::AllocGlobal;
use std::process::Abort;
use std::test::Fail;
use sys_base::{Fault, Kind, Word};

const ONE: Word = Word::Num(1);

const TWO: Word = Word::Num(2);

const THREE: Word = Word::Num(3);

/// The first of three cells sends three words to the last one.
const THROUGH: &[u8] = b"array 1 x 3; queues 1; message A from 0.0 to 0.2;\n\
    cell 0.0 { for i 3 { write A i + 1; } } cell 0.2 { var x; for i 3 { read A x; emit x; } }";

/// A filter.
const FILTER: &[u8] = b"array 1 x 3; queues 2;\n\
    message X0 from 0.0 to 0.1; message Y0 from 0.0 to 0.1;\n\
    message X1 from 0.1 to 0.2; message Y1 from 0.1 to 0.2;\n\
    cell 0.0 { var x; for i 4 { take x; write Y0 1 * x; write X0 x; } }\n\
    cell 0.1 { var x; var y; var old;\n\
    for i 4 { read Y0 y; read X0 x; write Y1 y + 2 * old; write X1 old; old = x; } }\n\
    cell 0.2 { var x; var y; var old; for i 4 { read Y1 y; read X1 x; emit y + 3 * old; old = x; } }";

/// A schedule drives a source to its end, in so many steps, and the cells emit these words: the run.
fn finished<R: Abort + AllocGlobal, C: Chooser>(
    rt: &R,
    source: &[u8],
    first: &[i64],
    chooser: &mut C,
    steps: u32,
    outputs: &[(u16, Word)],
) -> Result<Outcome, Fail> {
    let run = run(rt.alloc(), source, first, chooser)?;
    assert!(rt; run.driven == Driven::Finished);
    assert!(rt; run.finished);
    assert_eq!(rt; run.steps, steps);
    assert_eq!(rt; run.outputs.as_slice(), outputs);
    Ok(run)
}

/// A fault of the first cell.
fn fault(kind: Kind, line: u32) -> Word {
    Word::Fault(Fault {
        kind,
        cell: 0,
        line,
    })
}

#[test]
fn first_actors_are_recorded(rt: HostRuntime) -> Result<(), Fail> {
    let source = b"array 1 x 2; queues 1; message A from 0.0 to 0.1;\n\
        cell 0.0 { write A 7; } cell 0.1 { var x; read A x; emit x; }";
    let run = finished(&rt, source, &[], &mut Low, 6, &[(1, Word::Num(7))])?;
    assert_eq!(rt;
        run.record.as_slice(),
        b"c0\nb1\nc0\nc1\nc1\nc1\n".as_slice()
    );
    assert_eq!(rt; run.peaks.as_slice(), [(1, 1)].as_slice());
    let source = b"array 1 x 2; queues 1; message A from 0.0 to 0.1; message B from 0.0 to 0.1;\n\
        cell 0.0 { write A 1; write A 2; write B 3; }\n\
        cell 0.1 { var x; read A x; read A x; read B x; emit x; }";
    let run = finished(&rt, source, &[], &mut Low, 13, &[(1, THREE)])?;
    let record = b"c0\nb1\nc0\nc0\nc1\nc0\nc0\nc1\nb1\nc0\nc1\nc1\nc1\n";
    assert_eq!(rt; run.record.as_slice(), record.as_slice());
    assert_eq!(rt; run.peaks.as_slice(), [(1, 1)].as_slice());
    Ok(())
}

#[test]
fn words_move_on(rt: HostRuntime) -> Result<(), Fail> {
    let outputs = [(2, ONE), (2, TWO), (2, THREE)];
    let low = finished(&rt, THROUGH, &[], &mut Low, 34, &outputs)?;
    let record = b"c0\nc0\nc0\nc0\nc2\nb1\nc0\nc0\nc0\nc0\nc0\nb5\nf0.0\nc0\nc0\nc0\nc0\nc0\n\
        c2\nc2\nc2\nc2\nf0.0\nc0\nc0\nc2\nc2\nc2\nc2\nf0.0\nc2\nc2\nc2\nc2\n";
    assert_eq!(rt; low.record.as_slice(), record.as_slice());
    assert_eq!(rt; low.peaks.as_slice(), [(1, 1), (5, 1)].as_slice());
    let high = finished(&rt, THROUGH, &[], &mut High, 34, &outputs)?;
    let record = b"b5\nb1\nc2\nc0\nc0\nc0\nc0\nc0\nf0.0\nc2\nc2\nc2\nc2\n\
        c0\nc0\nc0\nc0\nc0\nf0.0\nc2\nc2\nc2\nc2\nc0\nc0\nc0\nc0\nc0\nf0.0\nc2\nc2\nc2\nc2\nc0\n";
    assert_eq!(rt; high.record.as_slice(), record.as_slice());
    assert_eq!(rt; high.peaks.as_slice(), [(1, 1), (5, 1)].as_slice());
    Ok(())
}

#[test]
fn faults_are_emitted(rt: HostRuntime) -> Result<(), Fail> {
    let alone = b"array 1 x 1; queues 1;\ncell 0.0 {\nemit 1 / 0;\n}";
    let zero = fault(Kind::Z, 3);
    let run = finished(&rt, alone, &[], &mut Low, 4, &[(0, zero)])?;
    assert!(rt; run.peaks.is_empty());
    let tested = b"array 1 x 2; queues 1; message A from 0.0 to 0.1;\ncell 0.0 {\n\
        if 1 / 0 { write A 5; } else { write A 6; }\nwrite A 7;\n}\n\
        cell 0.1 { var x; for i 2 { read A x; emit x; } }";
    let run = finished(&rt, tested, &[], &mut Low, 18, &[(1, zero), (1, zero)])?;
    assert_eq!(rt; run.peaks.as_slice(), [(1, 1)].as_slice());
    let indexed = b"array 1 x 1; queues 1;\ncell 0.0 {\nvar a[2];\n\
        emit (-9223372036854775807 - 1) / -1;\nemit a[2];\nemit a[1] + 4;\na[2] = 1;\nemit 3;\n}";
    let outputs = [
        (0, fault(Kind::O, 4)),
        (0, fault(Kind::X, 5)),
        (0, Word::Num(4)),
        (0, fault(Kind::X, 7)),
    ];
    let run = finished(&rt, indexed, &[], &mut Low, 21, &outputs)?;
    assert!(rt; run.peaks.is_empty());
    Ok(())
}

#[test]
fn arms_are_taken(rt: HostRuntime) -> Result<(), Fail> {
    let source = b"array 1 x 2; queues 1; message A from 0.0 to 0.1;\n\
        cell 0.0 { if 1 { for i 2 { write A 1; } } else { write A 2; write A 3; } }\n\
        cell 0.1 { var x; for i 2 { read A x; emit x; } }";
    let run = finished(&rt, source, &[], &mut Low, 20, &[(1, ONE), (1, ONE)])?;
    assert_eq!(rt; run.peaks.as_slice(), [(1, 1)].as_slice());
    Ok(())
}

#[test]
fn all_schedules_filter_alike(rt: HostRuntime) -> Result<(), Fail> {
    let input = [1, 0, 0, 0];
    let outputs = [(2, ONE), (2, TWO), (2, THREE), (2, Word::Num(0))];
    let low = finished(&rt, FILTER, &input, &mut Low, 133, &outputs)?;
    assert_eq!(rt; low.peaks.as_slice(), [(1, 2), (5, 2)].as_slice());
    finished(&rt, FILTER, &input, &mut High, 133, &outputs)?;
    finished(&rt, FILTER, &input, &mut Round::new(), 133, &outputs)?;
    finished(&rt, FILTER, &input, &mut Seeded::new(5), 133, &outputs)?;
    Ok(())
}

#[test]
fn a_table_stops_at_its_tenth_pick(rt: HostRuntime) -> Result<(), Fail> {
    let run = run(rt.alloc(), THROUGH, &[], &mut Table::new())?;
    assert!(rt; run.driven == Driven::Stopped);
    assert!(rt; !run.finished);
    assert_eq!(rt; run.steps, 9);
    Ok(())
}

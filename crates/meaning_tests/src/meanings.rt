//! What programs mean, by their sources.
ghost use Rattle.std.specs.Prelude.{◌≤◌, IfOk};
ghost use Rattle.sys_base.specs.declared.limits.TheConstants.{STEPS};
ghost use Rattle.cell_types.specs.Alike.{Alike};
ghost use Rattle.cell_types.specs.Cost.{cells_cost};
ghost use Rattle.cell_types.specs.Typed.{plain};
ghost use Rattle.comm_sequence.specs.BufferedOrder.{IsBufferedOrder};
ghost use Rattle.comm_sequence.specs.Sequences.{sequences_of};

use cell_lexer::tokens;
use cell_parser::parse;
use cell_types::{Program, resolve};
use comm_sequence::Comm::{self, Read, Write};
use comm_sequence::{cost, sequences};
use crossing_off::{Crossed, cross};
use rendezvous::meaning;
use std::alloc::Global;
use std::test::Fail;
use sys_base::{Fault, Inputs, Items, Kind, Outputs, SOURCE_BYTES, Word};

/// The program of a source.
fn program_of(alloc: Global, source: &[u8]) -> Result<Program, Fail>
    ensures { IfOk result (λ p. cells_cost (plain p) ≤ STEPS) }
{
    if source.len() > SOURCE_BYTES {
        return Err("too long".into());
    }
    let found = tokens(alloc, source)?;
    let program = resolve(alloc, parse(alloc, source, &found)?)?;
    match cost(&program) {
        Some(_) => Ok(program),
        None => Err("too many steps".into()),
    }
}

/// The order in which the writes and reads of a program are crossed off.
fn order_of(alloc: Global, program: &Program) -> Result<Vec<Comm>, Fail>
    requires cost { cells_cost (plain program.now) ≤ STEPS }
    ensures alike { IfOk result (λ _. Alike (plain program.now)) }
    ensures order { IfOk result (λ order. IsBufferedOrder (sequences_of (plain program.now)).lists
        (sequences_of (plain program.now)).ends (plain program.now).buffer order.items) }
{
    let seqs = sequences(alloc, program)?;
    match cross(alloc, &seqs, program.buffer())? {
        Crossed::Empty(order) => Ok(order),
        Crossed::Left(_) => Err("no order".into()),
    }
}

/// The meaning of a source, where just the first cell has an input.
fn meant(alloc: Global, source: &[u8], first: &[i64]) -> Result<Outputs, Fail> {
    let program = program_of(alloc, source)?;
    let order = order_of(alloc, &program)?;
    let inputs = Inputs {
        cells: Items::from_vec(vec![in alloc; Items::from_slice(alloc, first)?]?),
    };
    Ok(meaning(alloc, &program, &order, &inputs)?)
}

/// The words of a cell, and none where there is no such cell.
fn words(outputs: &Outputs, cell: usize) -> &[Word] {
    match outputs.cells.get(cell) {
        Some(words) => words.as_slice(),
        None => &[],
    }
}

/// The fault of the first cell at a line.
fn fault(kind: Kind, line: u32) -> Word {
    Word::Fault(Fault {
        kind,
        cell: 0,
        line,
    })
}

/// Two messages that need two queues on a link that has one: their meaning asks for no queue.
#[test]
fn messages_that_lack_queues(rt: HostRuntime) -> Result<(), Fail> {
    let alloc = rt.alloc();
    let source = b"array 1 x 2; queues 1; message A from 0.0 to 0.1; message B from 0.0 to 0.1;\n\
        cell 0.0 { write A 1; write B 2; write A 3; }\n\
        cell 0.1 { var x; read A x; read B x; read A x; emit x; }";
    let order = order_of(alloc, &program_of(alloc, source)?)?;
    let wanted = [Write(0), Read(0), Write(1), Read(1), Write(0), Read(0)];
    assert_eq!(rt; order.as_slice(), wanted.as_slice());
    let outputs = meant(alloc, source, &[])?;
    assert_eq!(rt; outputs.cells.len(), 2);
    assert_eq!(rt; words(&outputs, 0), [].as_slice());
    assert_eq!(rt; words(&outputs, 1), [Word::Num(3)].as_slice());
    Ok(())
}

/// A broken cell writes its fault, and goes on.
#[test]
fn broken_cell_goes_on(rt: HostRuntime) -> Result<(), Fail> {
    let source = b"array 1 x 2; queues 1; message A from 0.0 to 0.1;\n\
        cell 0.0 {\n\
        if 1 / 0 { write A 5; } else { write A 6; }\n\
        write A 7;\n\
        }\n\
        cell 0.1 { var x; for i 2 { read A x; emit x; } }";
    let outputs = meant(rt.alloc(), source, &[])?;
    let divided = fault(Kind::Z, 3);
    assert_eq!(rt; words(&outputs, 1), [divided, divided].as_slice());
    Ok(())
}

/// Faults of the arithmetic and of indices stand in their words' places, and a store outside an array breaks the cell.
#[test]
fn faults_are_emitted(rt: HostRuntime) -> Result<(), Fail> {
    let source = b"array 1 x 1; queues 1;\n\
        cell 0.0 {\n\
        var a[2];\n\
        emit (-9223372036854775807 - 1) / -1;\n\
        emit a[2];\n\
        emit a[1] + 4;\n\
        a[2] = 1;\n\
        emit 3;\n\
        }";
    let outputs = meant(rt.alloc(), source, &[])?;
    let emitted = [
        fault(Kind::O, 4),
        fault(Kind::X, 5),
        Word::Num(4),
        fault(Kind::X, 7),
    ];
    assert_eq!(rt; words(&outputs, 0), emitted.as_slice());
    Ok(())
}

/// A filter of three taps answers one word after the other.
#[test]
fn filter_answers(rt: HostRuntime) -> Result<(), Fail> {
    let source = b"array 1 x 3; queues 2;\n\
        message X0 from 0.0 to 0.1; message Y0 from 0.0 to 0.1;\n\
        message X1 from 0.1 to 0.2; message Y1 from 0.1 to 0.2;\n\
        cell 0.0 { var x; for i 4 { take x; write Y0 1 * x; write X0 x; } }\n\
        cell 0.1 { var x; var y; var old;\n\
        for i 4 { read Y0 y; read X0 x; write Y1 y + 2 * old; write X1 old; old = x; } }\n\
        cell 0.2 { var x; var y; var old; for i 4 { read Y1 y; read X1 x; emit y + 3 * old; old = x; } }";
    let outputs = meant(rt.alloc(), source, &[1, 0, 0, 0])?;
    let emitted = [Word::Num(1), Word::Num(2), Word::Num(3), Word::Num(0)];
    assert_eq!(rt; words(&outputs, 2), emitted.as_slice());
    Ok(())
}

/// Past the end of its input a cell takes the number 0.
#[test]
fn input_ends(rt: HostRuntime) -> Result<(), Fail> {
    let source = b"array 1 x 1; queues 1; cell 0.0 { var x; for i 3 { take x; emit x; } }";
    let outputs = meant(rt.alloc(), source, &[4, -5])?;
    assert_eq!(rt;
        words(&outputs, 0),
        [Word::Num(4), Word::Num(-5), Word::Num(0)].as_slice()
    );
    Ok(())
}

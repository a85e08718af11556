//! Code is run by the machine.
ghost use Rattle.std.specs.Prelude.{◌≡◌, ◌<◌, ◌^◌, false, None, IfOk, length};
ghost use Rattle.cell_code.specs.ShapedCells.{IsShapedCell};
ghost use Rattle.cell_machine.specs.Machine.{IsReached};

use crate::sources::first_code;
use cell_code::{CellImage, Instr, checked_cells_are_shaped};
use cell_machine::{CellState, CellStep, Port};
use std::alloc::{AllocError, Global};
use std::test::Fail;
use sys_base::{Fault, Items, Kind, Op, Word};

/// A port without messages.
#[derive(Debug, Drop)]
struct NoPort {}

impl Port for NoPort {
    ghost room = { λ _ _. false };

    ghost first = { λ _ _. None };

    ghost wrote = { λ _ _ _ _. ⊥ };

    ghost gave = { λ _ _ _ _. ⊥ };

    fn write(&mut self, _message: u16, _word: Word) -> bool {
        false
    }

    fn read(&mut self, _message: u16) -> Option<Word> {
        None
    }
}

/// A cell that multiplies 0 by a quotient that there isn't.
fn zero_times_fault(alloc: Global) -> Result<CellImage, AllocError>
    ensures shaped { IfOk result IsShapedCell }
    ensures short { IfOk result (λ image. length image.code < 2 ^ 32) }
    ensures takes { IfOk result (λ image. image.takes ≡ 0) }
{
    let code = [
        Instr::Push(0),
        Instr::Push(1),
        Instr::Push(0),
        Instr::Bin {
            op: Op::Div,
            line: 1,
        },
        Instr::Bin {
            op: Op::Mul,
            line: 1,
        },
        Instr::Emit,
        Instr::Halt,
    ];
    checked_cells_are_shaped();
    let code = Items::from_slice(alloc, &code)?;
    Ok(CellImage {
        takes: 0,
        emits: 1,
        words: 0,
        counters: 0,
        stack: 3,
        code,
    })
}

/// Steps until the machine stands, and at most 100 times.
fn run(state: &mut CellState, image: &CellImage) -> CellStep
    requires { IsReached image.now state.old }
    ensures { IsReached image.now state.new }
{
    let mut port = NoPort {};
    for _step in 0..100 {
        let answer = state.step(image, &mut port);
        if answer != CellStep::Moved {
            return answer;
        }
    }
    CellStep::Moved
}

/// Neither operand is passed over: 0 times a fault is that fault.
#[test]
fn both_operands_are_run(rt: HostRuntime) -> Result<(), Fail> {
    let alloc = rt.alloc();
    let image = zero_times_fault(alloc)?;
    let code = first_code(
        alloc,
        b"array 1 x 1; queues 1; cell 0.0 { emit 0 * (1 / 0); }",
    )?;
    assert_eq!(rt; code.as_slice(), image.code.as_slice());
    let mut state = CellState::new(alloc, 0, &image, Vec::new(alloc))?;
    assert_eq!(rt; run(&mut state, &image), CellStep::Halted);
    let fault = Fault {
        kind: Kind::Z,
        cell: 0,
        line: 1,
    };
    assert_eq!(rt; state.output(), [Word::Fault(fault)].as_slice());
    Ok(())
}

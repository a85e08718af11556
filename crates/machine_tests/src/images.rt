ghost use Rattle.std.specs.Prelude.{◌≡◌, ◌<◌, ◌^◌, IfOk, length};
ghost use Rattle.cell_code.specs.ShapedCells.{IsShapedCell};

use cell_code::{CellImage, Instr, checked_cells_are_shaped};
use std::alloc::{AllocError, Global};
use sys_base::{Items, Op};

/// A cell that executes every instruction: it takes a number and stores its sum with each of two turns in an array,
/// reads a word and writes it negated to message 1, and emits 1 where the second element isn't 0.
pub fn every_instruction(alloc: Global) -> Result<CellImage, AllocError>
    ensures shaped { IfOk result IsShapedCell }
    ensures short { IfOk result (λ image. length image.code < 2 ^ 32) }
    ensures takes { IfOk result (λ image. image.takes ≡ 1) }
{
    let code = [
        Instr::Take(0),
        Instr::Loop {
            counter: 0,
            turns: 2,
            exit: 8,
        },
        Instr::Counter(0),
        Instr::Load(0),
        Instr::Counter(0),
        Instr::Bin {
            op: Op::Add,
            line: 1,
        },
        Instr::StoreAt {
            base: 1,
            len: 2,
            line: 1,
        },
        Instr::Next {
            counter: 0,
            turns: 2,
            body: 2,
        },
        Instr::Read {
            message: 0,
            word: 0,
        },
        Instr::Load(0),
        Instr::Neg { line: 2 },
        Instr::Write(1),
        Instr::Push(1),
        Instr::LoadAt {
            base: 1,
            len: 2,
            line: 3,
        },
        Instr::IfZero(17),
        Instr::Push(1),
        Instr::Jump(18),
        Instr::Push(2),
        Instr::Store(0),
        Instr::Load(0),
        Instr::Emit,
        Instr::Halt,
    ];
    checked_cells_are_shaped();
    let code = Items::from_slice(alloc, &code)?;
    Ok(CellImage {
        takes: 1,
        emits: 1,
        words: 3,
        counters: 1,
        stack: 3,
        code,
    })
}

/// A cell that computes each fault and writes it to message 0, is broken by a refused store in line 7, computes one
/// more fault that it tests, and then emits and writes to message 1 a number, but for its fault.
pub fn every_fault(alloc: Global) -> Result<CellImage, AllocError>
    ensures shaped { IfOk result IsShapedCell }
    ensures short { IfOk result (λ image. length image.code < 2 ^ 32) }
    ensures takes { IfOk result (λ image. image.takes ≡ 0) }
{
    let code = [
        Instr::Push(i64::MAX),
        Instr::Push(1),
        Instr::Bin {
            op: Op::Add,
            line: 4,
        },
        Instr::Write(0),
        Instr::Push(1),
        Instr::Push(0),
        Instr::Bin {
            op: Op::Rem,
            line: 5,
        },
        Instr::Write(0),
        Instr::Push(2),
        Instr::LoadAt {
            base: 0,
            len: 2,
            line: 6,
        },
        Instr::Write(0),
        Instr::Push(1),
        Instr::Neg { line: 7 },
        Instr::Push(3),
        Instr::StoreAt {
            base: 0,
            len: 2,
            line: 7,
        },
        Instr::Push(1),
        Instr::Push(0),
        Instr::Bin {
            op: Op::Div,
            line: 8,
        },
        Instr::IfZero(19),
        Instr::Load(0),
        Instr::Emit,
        Instr::Push(4),
        Instr::Write(1),
        Instr::Halt,
    ];
    checked_cells_are_shaped();
    let code = Items::from_slice(alloc, &code)?;
    Ok(CellImage {
        takes: 0,
        emits: 1,
        words: 2,
        counters: 0,
        stack: 2,
        code,
    })
}

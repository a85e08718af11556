//! A machine is driven through every instruction and each fault.
ghost use Rattle.cell_machine.specs.Machine.{IsReached};

use crate::images::{every_fault, every_instruction};
use crate::line::Line;
use cell_code::CellImage;
use cell_machine::{CellState, CellStep};
use std::test::Fail;
use sys_base::{Fault, Kind, Word};

/// Steps until the machine stands, and at most 100 times.
fn run(state: &mut CellState, image: &CellImage, line: &mut Line) -> CellStep
    requires { IsReached image.now state.old }
    ensures { IsReached image.now state.new }
{
    for _step in 0..100 {
        let answer = state.step(image, line);
        if answer != CellStep::Moved {
            return answer;
        }
    }
    CellStep::Moved
}

#[test]
fn every_instruction_runs(rt: HostRuntime) -> Result<(), Fail> {
    let alloc = rt.alloc();
    let image = every_instruction(alloc)?;
    let mut state = CellState::new(alloc, 2, &image, vec![in alloc; 5]?)?;
    let mut line = Line {
        written: Vec::new(alloc),
        words: Vec::new(alloc),
        next: 0,
    };
    // Nothing to read, and then no room to write: the machine stands where it stood.
    assert_eq!(rt; run(&mut state, &image, &mut line), CellStep::WaitsRead(0));
    assert_eq!(rt; state.step(&image, &mut line), CellStep::WaitsRead(0));
    assert_eq!(rt; state.at(), 8);
    line.words.push(Word::Num(7))?;
    assert_eq!(rt; run(&mut state, &image, &mut line), CellStep::WaitsWrite(1));
    assert_eq!(rt; state.step(&image, &mut line), CellStep::WaitsWrite(1));
    assert_eq!(rt; state.at(), 11);
    line.written = Vec::with_capacity(alloc, 1)?;
    assert_eq!(rt; run(&mut state, &image, &mut line), CellStep::Halted);
    assert_eq!(rt; state.step(&image, &mut line), CellStep::Halted);
    assert_eq!(rt; state.at(), 21);
    assert_eq!(rt; line.written.as_slice(), [(1, Word::Num(-7))].as_slice());
    assert_eq!(rt; state.output(), [Word::Num(1)].as_slice());
    Ok(())
}

fn fault(kind: Kind, line: u32) -> Word {
    Word::Fault(Fault {
        kind,
        cell: 3,
        line,
    })
}

#[test]
fn every_fault_is_computed(rt: HostRuntime) -> Result<(), Fail> {
    let alloc = rt.alloc();
    let image = every_fault(alloc)?;
    let mut state = CellState::new(alloc, 3, &image, Vec::new(alloc))?;
    let mut line = Line {
        written: Vec::with_capacity(alloc, 4)?,
        words: Vec::new(alloc),
        next: 0,
    };
    assert_eq!(rt; run(&mut state, &image, &mut line), CellStep::Halted);
    let kept = fault(Kind::X, 7);
    let written = [
        (0, fault(Kind::O, 4)),
        (0, fault(Kind::Z, 5)),
        (0, fault(Kind::X, 6)),
        (1, kept),
    ];
    assert_eq!(rt; line.written.as_slice(), written.as_slice());
    assert_eq!(rt; state.output(), [kept].as_slice());
    Ok(())
}

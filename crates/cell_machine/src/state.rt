ghost use Rattle.std.specs.Prelude.{◌≡◌, ◌≢◌, ◌↔◌, ◌<◌, ◌^◌, ℕ, false, length, IfOk, Some, None, slice_get};
ghost use Rattle.cell_code.specs.Rows.{row_at};
ghost use Rattle.cell_code.specs.ShapedCells.{IsShapedCell};
ghost use Rattle.cell_code.specs.declared.instruction.Instr.TheVariants as I;
ghost use Rattle.cell_machine.specs.Machine.{new_machine, IsReached};
ghost use Rattle.cell_machine.specs.Steps.{Does};

use crate::port::Port;
use crate::registers::Registers;
use crate::step::CellStep;
use cell_code::CellImage;
use std::alloc::Global;
use std::marker::Model;
use sys_base::{Memory, Word};

/// The machine of a cell, seen as its cell's number, its input, its state, and the places that are kept for its stack
/// and its output (`specs/Machine.antt`).
#[derive(Debug, Drop)]
pub struct CellState {
    registers: Registers,
    places: usize,
    room: usize,
}

impl Model for CellState {
    ghost use Rattle.std.specs.Prelude.{◌≤◌};
    ghost use Rattle.std.specs.Vec.{vec_capacity};
    ghost use Rattle.cell_machine.specs.Machine.{Machine};

    ghost Value = { Machine };

    ghost use Rattle.cell_machine.specs.Ready.{machine_of};

    ghost view = { λ c. machine_of c.registers c.places c.room };

    ghost invariant = { λ c. (c.places ≤ vec_capacity c.registers.stack) × (c.room ≤ vec_capacity c.registers.output) };
}

impl CellState {
    /// A new machine for a cell image, with the numbers that it will take. All memory of the machine is taken here.
    pub fn new(
        alloc: Global,
        cell: u16,
        image: &CellImage,
        input: Vec<i64>,
    ) -> Result<CellState, Memory>
        requires shaped { IsShapedCell image.now }
        requires short { length image.now.code < 2 ^ 32 }
        requires input { length input.items ≡ image.now.takes }
        ensures machine { IfOk result (λ m. m ≡ new_machine cell image.now input.items) }
        ensures reached { IfOk result (λ m. IsReached image.now m) }
    {
        let registers = Registers::new(alloc, cell, image, input)?;
        Ok(CellState {
            registers,
            places: usize::from(image.stack),
            room: image.emits as usize,
        })
    }

    /// Executes the next instruction of the image that the machine was made for, and takes no memory.
    ///
    /// The step is that instruction's row (`specs/Steps.antt`, `cell_code`'s `specs/Rows.antt`). Where it is a write
    /// for which the port has no room, a read for which the port has no word, or `halt`, machine and port stay as
    /// they were.
    pub fn step<P: Port>(&mut self, image: &CellImage, port: &mut P) -> CellStep
        requires { IsReached image.now self.old }
        ensures reached { IsReached image.now self.new }
        ensures rest { self.new ≡ record self.old { state = self.new.state } }
        ensures row { Does P.room P.first P.wrote P.gave
            (row_at image.now.code self.old.cell self.old.input self.old.state)
            self.old.state self.new.state port.old port.new result }
        ensures waits_write { (message : ℕ) → (result ≡ CellStep.WaitsWrite message)
            ↔ ((slice_get image.now.code self.old.state.at ≡ Some (I.Write message))
            × (P.room port.old message ≡ false)) }
        ensures waits_read { (message : ℕ) → (result ≡ CellStep.WaitsRead message)
            ↔ ((word : ℕ) × (slice_get image.now.code self.old.state.at ≡ Some (I.Read message word))
            × (P.first port.old message ≡ None)) }
        ensures halted { (result ≡ CellStep.Halted) ↔ (slice_get image.now.code self.old.state.at ≡ Some I.Halt) }
        ensures refused { result ≢ CellStep.Moved → (self.new ≡ self.old) × (port.new ≡ port.old) }
    {
        match image.code.get(self.registers.at as usize) {
            Some(instr) => self.registers.act(*instr, port),
            None => CellStep::Halted,
        }
    }

    /// The words that the cell has emitted.
    pub fn output(&self) -> &[Word]
        ensures { result.now ≡ self.now.state.held.output }
    {
        self.registers.output.as_slice()
    }

    /// The address of the next instruction.
    pub fn at(&self) -> u32
        ensures { result ≡ self.now.state.at }
    {
        self.registers.at
    }
}

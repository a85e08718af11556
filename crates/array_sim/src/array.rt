ghost use Rattle.std.specs.Prelude.{◌≡◌, ◌↔◌, ◌*◌, ◌<◌, ◌≤◌, ◌∷◌, ◌++◌, [], ℕ, true, false, Some, filter, length, IfOk, IsTrue, slice_get};
ghost use Rattle.std.specs.Vec.{vec_capacity};
ghost use Rattle.sys_base.specs.declared.actor.Actor.TheVariants as A;
ghost use Rattle.cell_code.specs.Images.{IsShaped};
ghost use Rattle.cell_code.specs.declared.instruction.Instr.TheVariants as I;
ghost use Rattle.array_model.specs.Runs.{IsFinished};
ghost use Rattle.array_model.specs.States.{ArrayState, IsCounted, cells, code_of, opening};
ghost use Rattle.array_model.specs.Steps.{is_enabled};
ghost use Rattle.array_sim.specs.Simulations.{StandsFor, cap_in, inputs_in, inputs_of, machine_at, peak_in, states_in};
ghost use Rattle.array_sim.specs.bodies.Inside.{HasStepped, IsArray, can_go, wired_in};
ghost use Rattle.array_sim.specs.bodies.Wiring.{can_read, room_in};

use crate::cells::new_cells;
use crate::wires::Wires;
use cell_code::{Image, Instr};
use cell_machine::{CellState, CellStep};
use std::alloc::Global;
use std::marker::Model;
use sys_base::{Actor, Inputs, Memory, Word};

/// An array that runs an image: the machine of each cell, and the queues with the peaks of the links.
#[derive(Drop)]
pub(crate) struct Array<'a> {
    image: &'a Image,
    cells: Vec<CellState>,
    wires: Wires<'a>,
}

impl<'a> Model for Array<'a> {
    ghost use Rattle.array_sim.specs.Simulations.{Contents};

    ghost Value = { Contents };

    ghost view = { λ a.
        record { image = a.image.now; cells = a.cells.items; fabric = a.wires.fabric; peaks = a.wires.peaks } };

    ghost use Rattle.array_sim.specs.bodies.Inside.{IsArray};

    ghost invariant = { λ a. IsArray
        (record { image = a.image.now; cells = a.cells.items; fabric = a.wires.fabric; peaks = a.wires.peaks }) };
}

impl<'a> Array<'a> {
    /// The array in its opening state, with all memory that it needs.
    pub(crate) fn new(
        alloc: Global,
        image: &'a Image,
        inputs: Inputs,
        cap: u8,
    ) -> Result<Array<'a>, Memory>
        requires shaped { IsShaped image.now }
        requires some_words { 1 ≤ cap }
        requires most_words { cap ≤ 64 }
        requires lists { length inputs.cells ≡ cells image.now }
        requires counted { IsCounted image.now (inputs_of inputs.cells) }
        ensures image { IfOk result (λ a. a.image ≡ image.now) }
        ensures cap { IfOk result (λ a. cap_in a ≡ cap) }
        ensures inputs { IfOk result (λ a. inputs_in a ≡ inputs_of inputs.cells) }
        ensures stands { IfOk result (λ a. StandsFor a (opening image.now)) }
        ensures peaks { IfOk result (λ a. (l : ℕ) → peak_in a l ≡ 0) }
    {
        let cells = new_cells(alloc, image, inputs)?;
        let wires = Wires::new(alloc, image, cap)?;
        Ok(Array {
            image,
            cells,
            wires,
        })
    }

    /// Takes the step of an actor, if it has one: whether it has.
    pub(crate) fn act(&mut self, actor: Actor) -> bool
        ensures answer { (s : ArrayState) → StandsFor self.old s
            → result ≡ is_enabled self.old.image (inputs_in self.old) (cap_in self.old) s actor }
        ensures stepped { result ≡ true → HasStepped self.old actor self.new }
        ensures refused { result ≡ false → self.new ≡ self.old }
    {
        match actor {
            Actor::Cell(cell) => self.execute(cell),
            Actor::Forward(message, hop) => self.wires.forward(message, hop),
            Actor::Bind(link) => self.wires.bind(link),
        }
    }

    /// A cell executes its next instruction, if it can: whether it can.
    fn execute(&mut self, cell: u16) -> bool
        ensures answer { (s : ArrayState) → StandsFor self.old s
            → result ≡ is_enabled self.old.image (inputs_in self.old) (cap_in self.old) s (A.Cell cell) }
        ensures stepped { result ≡ true → HasStepped self.old (A.Cell cell) self.new }
        ensures refused { result ≡ false → self.new ≡ self.old }
    {
        let index = usize::from(cell);
        if index >= self.cells.len() {
            return false;
        }
        let image = &self.image.cells.as_slice()[index];
        matches!(
            self.cells[index].step(image, &mut self.wires),
            CellStep::Moved
        )
    }

    /// Makes the list of those actors that can take a step.
    pub(crate) fn list(&self, actors: &[Actor], enabled: &mut Vec<Actor>)
        requires { length actors.now ≤ vec_capacity enabled.old }
        ensures listed { (s : ArrayState) → StandsFor self.now s → enabled.new.items
            ≡ filter (is_enabled self.now.image (inputs_in self.now) (cap_in self.now) s) actors.now }
        ensures room { vec_capacity enabled.old ≤ vec_capacity enabled.new }
    {
        enabled.clear();
        for actor in actors {
            if self.can_act(*actor) {
                add(enabled, *actor);
            }
        }
    }

    /// Whether an actor can take a step.
    fn can_act(&self, actor: Actor) -> bool
        ensures { (s : ArrayState) → StandsFor self.now s
            → result ≡ is_enabled self.now.image (inputs_in self.now) (cap_in self.now) s actor }
    {
        match actor {
            Actor::Cell(cell) => self.can_execute(cell),
            Actor::Forward(message, hop) => self.wires.can_forward(message, hop),
            Actor::Bind(link) => self.wires.can_bind(link),
        }
    }

    /// Whether a cell can execute its next instruction.
    fn can_execute(&self, cell: u16) -> bool
        ensures { (s : ArrayState) → StandsFor self.now s
            → result ≡ is_enabled self.now.image (inputs_in self.now) (cap_in self.now) s (A.Cell cell) }
    {
        match self.next_instruction(usize::from(cell)) {
            Some(instr) => self.can_do(instr),
            None => false,
        }
    }

    /// Whether an instruction that comes next has a step.
    fn can_do(&self, instr: Instr) -> bool
        ensures { result ≡ can_go (room_in (wired_in self.now)) (can_read (wired_in self.now)) (Some instr) }
    {
        match instr {
            Instr::Write(message) => self.wires.can_write(message),
            Instr::Read { message, .. } => self.wires.can_read(message),
            Instr::Halt => false,
            _ => true,
        }
    }

    /// The next instruction of a cell, if there is such a cell.
    fn next_instruction(&self, cell: usize) -> Option<Instr>
        ensures instruction { result ≡ slice_get (code_of self.now.image cell) (states_in self.now cell).at }
        ensures array { IsArray self.now }
    {
        let machine = self.cells.get(cell)?;
        let image = self.image.cells.get(cell)?;
        image.code.get(machine.at() as usize).copied()
    }

    /// Whether each cell is at `halt`.
    pub(crate) fn is_finished(&self) -> bool
        ensures { (s : ArrayState) → StandsFor self.now s → (IsTrue result ↔ IsFinished self.now.image s) }
    {
        for cell in 0..self.cells.len() {
            if self.next_instruction(cell) != Some(Instr::Halt) {
                return false;
            }
        }
        true
    }

    /// How many steps a run makes at most.
    pub(crate) fn bound(&self) -> u32
        ensures { result ≡ self.now.image.bound }
    {
        self.image.bound
    }

    /// The peak of a link.
    pub(crate) fn peak(&self, link: u16) -> u32
        requires { link < 4 * cells self.now.image }
        ensures { result ≡ peak_in self.now link }
    {
        self.wires.peak(link)
    }

    /// The words that a cell has emitted.
    pub(crate) fn output(&self, cell: u16) -> &[Word]
        requires { cell < cells self.now.image }
        ensures { result.now ≡ (states_in self.now cell).held.output }
    {
        self.cells[usize::from(cell)].output()
    }
}

/// Adds an actor to a list that has room.
fn add(list: &mut Vec<Actor>, actor: Actor)
    requires { length list.old.items < vec_capacity list.old }
    ensures items { list.new.items ≡ list.old.items ++ actor ∷ [] }
    ensures room { vec_capacity list.old ≤ vec_capacity list.new }
{
    let _ = list.push(actor);
}

ghost use Rattle.std.specs.Prelude.{◌≡◌, ◌↔◌, ◌+◌, ◌*◌, ◌<◌, ◌≤◌, ℕ, max, true, false, List, [], ◌∷◌, ◌++◌, Some, length, IfOk, IsTrue};
ghost use Rattle.sys_base.specs.declared.actor.Actor.{Actor as AnActor};
ghost use Rattle.cell_code.specs.Images.{IsShaped};
ghost use Rattle.array_model.specs.Runs.{IsFinished, words_on};
ghost use Rattle.array_model.specs.States.{ArrayState, IsCounted, cells, opening};
ghost use Rattle.array_model.specs.Steps.{enabled, is_enabled, step};
ghost use Rattle.array_sim.specs.Simulations.{IsAfter, IsReached, StandsFor, cap_in, inputs_in, inputs_of, machine_at, peak_in};

use crate::actors::actors_of;
use crate::array::Array;
use cell_code::Image;
use std::alloc::Global;
use std::marker::Model;
use sys_base::{Actor, Inputs, Memory, Word};

/// A simulation of an array that runs an image (`docs/runs.md`, "Steps"). Contracts see its array, and how many steps
/// were made. It stands for states of the array's model; among them is always one to which a run of as many steps
/// leads.
#[derive(Drop)]
pub struct Sim<'a> {
    array: Array<'a>,
    actors: Vec<Actor>,
    enabled: Vec<Actor>,
    steps: u32,
}

impl<'a> Model for Sim<'a> {
    ghost use Rattle.array_sim.specs.Simulations.{Simulation};

    ghost Value = { Simulation };

    ghost view = { λ s. record { array = s.array; steps = s.steps } };

    ghost use Rattle.std.specs.Vec.{vec_capacity};
    ghost use Rattle.array_sim.specs.bodies.Inside.{IsSimulation};

    ghost invariant = { λ s. IsSimulation (record { array = s.array; steps = s.steps }) s.actors.items s.enabled.items
        (vec_capacity s.enabled) };
}

impl<'a> Sim<'a> {
    /// A simulation in the opening state. It takes all memory of the run: no later call takes any.
    ///
    /// The image is shaped, there are 1 to 64 words in a queue, and each cell has as many input words as it takes. A
    /// cell whose code has 2^32 instructions or more is too long for its addresses, and wants memory too.
    pub fn new(alloc: Global, image: &'a Image, inputs: Inputs, cap: u8) -> Result<Sim<'a>, Memory>
        requires shaped { IsShaped image.now }
        requires some_words { 1 ≤ cap }
        requires most_words { cap ≤ 64 }
        requires lists { length inputs.cells ≡ cells image.now }
        requires counted { IsCounted image.now (inputs_of inputs.cells) }
        ensures image { IfOk result (λ sim. sim.array.image ≡ image.now) }
        ensures cap { IfOk result (λ sim. cap_in sim.array ≡ cap) }
        ensures inputs { IfOk result (λ sim. inputs_in sim.array ≡ inputs_of inputs.cells) }
        ensures steps { IfOk result (λ sim. sim.steps ≡ 0) }
        ensures peaks { IfOk result (λ sim. (l : ℕ) → l < 4 * cells image.now → peak_in sim.array l ≡ 0) }
        ensures alone { IfOk result (λ sim. (s : ArrayState) → StandsFor sim.array s → s ≡ opening image.now) }
        ensures after { IfOk result (λ sim. IsAfter sim [] (opening image.now)) }
        ensures reached { IfOk result IsReached }
    {
        let array = Array::new(alloc, image, inputs, cap)?;
        let actors = actors_of(alloc, image)?;
        let mut enabled = Vec::with_capacity(alloc, actors.len())?;
        array.list(&actors, &mut enabled);
        Ok(Sim {
            array,
            actors,
            enabled,
            steps: 0,
        })
    }

    /// The actors that can take a step, in order: cells by index, then forwards by message and hop, then links by id.
    pub fn enabled(&self) -> &[Actor]
        ensures listed { (s : ArrayState) → StandsFor self.now.array s → result.now
            ≡ enabled self.now.array.image (inputs_in self.now.array) (cap_in self.now.array) s }
        ensures reached { IsReached self.now }
    {
        self.enabled.as_slice()
    }

    /// Takes the step of an actor: whether it can. Where it cannot, nothing changes.
    ///
    /// Then the actors are tested anew: the cells, the forwards and the links with a group. Nothing else of a step
    /// depends on how large the array is.
    pub fn step(&mut self, actor: Actor) -> bool
        requires { self.old.steps < 4294967295 }
        ensures answer { (s : ArrayState) → StandsFor self.old.array s → result
            ≡ is_enabled self.old.array.image (inputs_in self.old.array) (cap_in self.old.array) s actor }
        ensures refused { result ≡ false → self.new ≡ self.old }
        ensures image { self.new.array.image ≡ self.old.array.image }
        ensures cap { cap_in self.new.array ≡ cap_in self.old.array }
        ensures inputs { inputs_in self.new.array ≡ inputs_in self.old.array }
        ensures leads { result ≡ true → (s next : ArrayState) → StandsFor self.old.array s
            → step self.old.array.image (inputs_in self.old.array) (cap_in self.old.array) s actor ≡ Some next
            → StandsFor self.new.array next }
        ensures steps { result ≡ true → self.new.steps ≡ self.old.steps + 1 }
        ensures peaks { result ≡ true → (next : ArrayState) (l : ℕ) → StandsFor self.new.array next
            → l < 4 * cells self.old.array.image
            → peak_in self.new.array l ≡ max (peak_in self.old.array l) (words_on self.old.array.image l next) }
        ensures after { result ≡ true → (run : List AnActor) (last next : ArrayState) → IsAfter self.old run last
            → step self.old.array.image (inputs_in self.old.array) (cap_in self.old.array) last actor ≡ Some next
            → IsAfter self.new (run ++ actor ∷ []) next }
        ensures reached { IsReached self.new }
    {
        if !self.array.act(actor) {
            return false;
        }
        self.array.list(&self.actors, &mut self.enabled);
        self.steps += 1;
        true
    }

    /// Whether each cell is at `halt`.
    pub fn finished(&self) -> bool
        ensures finished { (s : ArrayState) → StandsFor self.now.array s
            → IsTrue result ↔ IsFinished self.now.array.image s }
        ensures reached { IsReached self.now }
    {
        self.array.is_finished()
    }

    /// How many steps were made.
    pub fn steps(&self) -> u32
        ensures steps { result ≡ self.now.steps }
        ensures reached { IsReached self.now }
    {
        self.steps
    }

    /// How many steps a run makes at most, as the image says.
    pub fn bound(&self) -> u32
        ensures bound { result ≡ self.now.array.image.bound }
        ensures reached { IsReached self.now }
    {
        self.array.bound()
    }

    /// The peak of a link: the most words that its queues had together in any state, the first one included.
    pub fn peak(&self, link: u16) -> u32
        requires { link < 4 * cells self.now.array.image }
        ensures peak { result ≡ peak_in self.now.array link }
        ensures reached { IsReached self.now }
    {
        self.array.peak(link)
    }

    /// The words that a cell has emitted.
    pub fn output(&self, cell: u16) -> &[Word]
        requires { cell < cells self.now.array.image }
        ensures output { (s : ArrayState) → StandsFor self.now.array s → result.now ≡ (s.cell cell).held.output }
        ensures reached { IsReached self.now }
    {
        self.array.output(cell)
    }
}

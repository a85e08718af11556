ghost use Rattle.std.specs.Prelude.{◌≡◌, ◌+◌, ◌<◌, ◌≤◌, List, None, Some};
ghost use Rattle.sys_base.specs.declared.actor.Actor.{Actor as AnActor};
ghost use Rattle.array_model.specs.States.{ArrayState};
ghost use Rattle.schedules.specs.Picks.{one_more_stop};
ghost use Rattle.array_picks.specs.Picked.{NeverStops};
ghost use Rattle.array_sim.specs.Simulations.{IsAfter, IsReached, cap_in, inputs_in};
ghost use Rattle.array_drive.specs.Driving.{IsSureAt};
ghost use Rattle.array_drive.specs.Driven.{Drives, EndsBy, Follows};
ghost use Rattle.array_drive.specs.declared.driving.Driven.TheVariants.{Finished, Stopped};
ghost use Rattle.array_drive.specs.declared.driving.Driven.{Driven as AnEnd};

use crate::trail::Trail;
use array_sim::Sim;
use schedules::{Chooser, Pick};

/// How a run has ended.
#[derive(Clone, Copy, Debug, PartialEq, Eq)]
pub enum Driven {
    /// No actor is enabled any more.
    Finished,
    /// The schedule stopped, though some actor was enabled.
    Stopped,
}

/// Lets a schedule drive a simulation until no actor is enabled or the schedule stops. Each pick is asked with the
/// enabled actors of the present state, and the actor picked takes its step and is recorded in the trail.
///
/// The image is sure at the capacity of the simulation, and the trail has room for its bound less the steps made. No
/// memory is taken.
pub fn drive<C: Chooser>(sim: &mut Sim<'_>, chooser: &mut C, trail: &mut Trail) -> Driven
    requires sure { IsSureAt sim.old.array.image (cap_in sim.old.array) }
    requires room { sim.old.array.image.bound ≤ sim.old.steps + trail.old.room }
    ensures driven { (run : List AnActor) (last : ArrayState) → IsAfter sim.old run last →
        Drives C.picks sim.old chooser.old trail.old run last result sim.new chooser.new trail.new }
    ensures image { sim.new.array.image ≡ sim.old.array.image }
    ensures cap { cap_in sim.new.array ≡ cap_in sim.old.array }
    ensures inputs { inputs_in sim.new.array ≡ inputs_in sim.old.array }
    ensures reached { IsReached sim.new }
    ensures later { C.stops chooser.old ≤ C.stops chooser.new }
    ensures stopped { result ≡ Stopped → one_more_stop (C.stops chooser.old) ≤ C.stops chooser.new }
    ensures never { NeverStops C.picks → result ≡ Finished }
{
    for _ in sim.steps()..sim.bound() {
        if let Some(driven) = turn(sim, chooser, trail) {
            return driven;
        }
    }
    Driven::Finished
}

/// Lets a schedule make its next pick, if some actor is enabled: how the run has ended, if it has.
fn turn<C: Chooser>(sim: &mut Sim<'_>, chooser: &mut C, trail: &mut Trail) -> Option<Driven>
    requires few { sim.old.steps < 4294967295 }
    requires room { 0 < trail.old.room }
    ensures follows { result ≡ None → (run : List AnActor) (last : ArrayState) → IsAfter sim.old run last →
        Follows C.picks sim.old chooser.old trail.old run last sim.new chooser.new trail.new }
    ensures steps { result ≡ None → sim.new.steps ≡ sim.old.steps + 1 }
    ensures roomy { result ≡ None → trail.new.room + 1 ≡ trail.old.room }
    ensures ends { (end : AnEnd) → result ≡ Some end → (run : List AnActor) (last : ArrayState) →
        IsAfter sim.old run last → EndsBy C.picks sim.old last chooser.old end chooser.new }
    ensures sim { (end : AnEnd) → result ≡ Some end → sim.new ≡ sim.old }
    ensures trail { (end : AnEnd) → result ≡ Some end → trail.new ≡ trail.old }
    ensures image { sim.new.array.image ≡ sim.old.array.image }
    ensures cap { cap_in sim.new.array ≡ cap_in sim.old.array }
    ensures inputs { inputs_in sim.new.array ≡ inputs_in sim.old.array }
    ensures reached { IsReached sim.new }
    ensures later { C.stops chooser.old ≤ C.stops chooser.new }
    ensures stopped { result ≡ Some Stopped → one_more_stop (C.stops chooser.old) ≤ C.stops chooser.new }
{
    let enabled = sim.enabled();
    if enabled.is_empty() {
        return Some(Driven::Finished);
    }
    match chooser.pick(enabled) {
        Pick::At(place) => {
            let actor = enabled[place];
            sim.step(actor);
            trail.add(actor);
            None
        }
        Pick::Stop => Some(Driven::Stopped),
    }
}

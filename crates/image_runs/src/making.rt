//! The runs that schedules make.
ghost use Rattle.std.specs.Prelude.{◌≡◌, ◌≤◌, ◌^◌, ◌<◌, [], vec_len};
ghost use Rattle.array_drive.specs.Driving.{IsSureAt};
ghost use Rattle.array_model.specs.States.{opening};
ghost use Rattle.array_sim.specs.Simulations.{IsAfter, IsReached, cap_in, inputs_in};
ghost use Rattle.run_words.specs.Schedules.{Finished as Finishes, High as ByHigh, Low as ByLow, Recorded as ByEntries, Round as ByRound, Seeded as BySeed};
ghost use Rattle.image_runs.specs.Made.{HasFewEntries, IsMade, IsReady, ending_of, schedule_of};

use array_drive::{Driven, Trail, drive};
use array_sim::Sim;
use schedules::{High, Low, Recorded, Round, Seeded, Standing};
use sys_base::Actor;

/// What picks the steps of a run.
#[derive(Drop)]
pub(crate) enum Schedule {
    /// Always the first enabled actor.
    Low,
    /// Always the last enabled actor.
    High,
    /// The enabled actors one after the other.
    Round,
    /// Drawn by a generator that is made of this number.
    Seeded(u64),
    /// These entries.
    Recorded(Vec<Actor>),
}

/// How a run ends.
#[derive(Clone, Copy, Debug, PartialEq, Eq)]
pub(crate) enum Ending {
    /// No actor is enabled.
    Finished,
    /// No entry is left, though some actor is enabled.
    Unfinished,
    /// This entry, from 1, is not enabled.
    NotEnabled { entry: u32 },
}

/// Makes the run of a schedule, and says how it ends.
pub(crate) fn make_run(sim: &mut Sim<'_>, trail: &mut Trail, schedule: Schedule) -> Ending
    requires ready { IsReady sim.old trail.old }
    requires few { HasFewEntries schedule }
    ensures made { IsMade sim.old sim.new trail.new (schedule_of schedule) (ending_of result) }
    ensures reached { IsReached sim.new }
{
    match schedule {
        Schedule::Low => make_low(sim, trail),
        Schedule::High => make_high(sim, trail),
        Schedule::Round => make_round(sim, trail),
        Schedule::Seeded(seed) => make_seeded(sim, trail, seed),
        Schedule::Recorded(entries) => return make_recorded(sim, trail, entries),
    }
    Ending::Finished
}

/// Makes the run that takes the first enabled actor each time.
fn make_low(sim: &mut Sim<'_>, trail: &mut Trail)
    requires { IsReady sim.old trail.old }
    ensures made { IsMade sim.old sim.new trail.new ByLow Finishes }
    ensures reached { IsReached sim.new }
{
    drive(sim, &mut Low, trail);
}

/// Makes the run that takes the last enabled actor each time.
fn make_high(sim: &mut Sim<'_>, trail: &mut Trail)
    requires { IsReady sim.old trail.old }
    ensures made { IsMade sim.old sim.new trail.new ByHigh Finishes }
    ensures reached { IsReached sim.new }
{
    drive(sim, &mut High, trail);
}

/// Makes the run that goes round.
fn make_round(sim: &mut Sim<'_>, trail: &mut Trail)
    requires { IsReady sim.old trail.old }
    ensures made { IsMade sim.old sim.new trail.new ByRound Finishes }
    ensures reached { IsReached sim.new }
{
    drive(sim, &mut Round::new(), trail);
}

/// Makes the run that a generator draws.
fn make_seeded(sim: &mut Sim<'_>, trail: &mut Trail, seed: u64)
    requires { IsReady sim.old trail.old }
    ensures made { IsMade sim.old sim.new trail.new (BySeed seed) Finishes }
    ensures reached { IsReached sim.new }
{
    drive(sim, &mut Seeded::new(seed), trail);
}

/// Makes the run of some entries, as far as they lead, and says how it ends.
fn make_recorded(sim: &mut Sim<'_>, trail: &mut Trail, entries: Vec<Actor>) -> Ending
    requires ready { IsReady sim.old trail.old }
    requires few { vec_len entries < 2 ^ 32 }
    ensures made { IsMade sim.old sim.new trail.new (ByEntries entries.items) (ending_of result) }
    ensures reached { IsReached sim.new }
{
    let mut schedule = Recorded::new(entries);
    match drive(sim, &mut schedule, trail) {
        Driven::Finished if schedule.left() == 0 => Ending::Finished,
        Driven::Finished => Ending::NotEnabled {
            entry: sim.steps() + 1,
        },
        Driven::Stopped => match schedule.standing() {
            Standing::NotEnabled { entry } => Ending::NotEnabled { entry },
            _ => Ending::Unfinished,
        },
    }
}

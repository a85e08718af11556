ghost use Rattle.std.specs.Prelude.{ℕ, ◌<◌, ◌≤◌, List, length};
ghost use Rattle.sys_base.specs.declared.actor.Actor.{Actor};
ghost use Rattle.schedules.specs.Picks.{IsPlaceIn, StopsByCount};
ghost use Rattle.schedules.specs.declared.chooser.Pick.{Pick};

use sys_base::Actor;

/// What a schedule answers when it is asked for the next step.
#[derive(Clone, Copy, Debug, PartialEq, Eq)]
pub enum Pick {
    /// The actor at this place of the list takes a step.
    At(usize),
    /// The run ends here.
    Stop,
}

/// A schedule: it picks the next step among the enabled actors (`docs/model.md`, "Schedules").
pub trait Chooser {
    // How often it has stopped. It never falls.
    ghost stops: { Self → ℕ };

    // What one pick may be: itself before, the list, its answer, and itself after.
    ghost picks: { Self → List Actor → Pick → Self → Type 0 };

    /// Picks one of the enabled actors, by its place in the list, or stops.
    fn pick(&mut self, enabled: &[Actor]) -> Pick
        requires { 0 < length enabled.now }
        ensures picked { picks self.old enabled.now result self.new }
        ensures place { IsPlaceIn enabled.now result }
        ensures later { stops self.old ≤ stops self.new }

        // It stops only where the count rose.
        ensures stopped { StopsByCount result (stops self.old) (stops self.new) };
}

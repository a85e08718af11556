ghost use Rattle.std.specs.Prelude.{◌≡◌, ◌^◌, ◌<◌, Contains, IfNone, IfSome, length, slice_get, vec_len};
ghost use Rattle.schedules.specs.Picks.{IsFirstPlace, one_more_stop};
ghost use Rattle.schedules.specs.declared.chooser.Pick.TheVariants.{Stop};
ghost use Rattle.schedules.specs.declared.recorded.Standing.TheVariants.{Running};

use crate::chooser::{Chooser, Pick};
use std::marker::Model;
use sys_base::Actor;

/// How the last pick of a recorded schedule ended.
#[derive(Clone, Copy, Debug, PartialEq, Eq)]
pub enum Standing {
    /// It took an entry, or there was no pick.
    Running,
    /// It stopped, since no entry was left.
    Ended,
    /// It stopped, since the actor of this entry, from 1, was not enabled.
    NotEnabled { entry: u32 },
}

/// The schedule that takes its entries in order. It stops where no entry is left, and where the next entry is not
/// enabled. Contracts see it as a `Recording` (`specs/Picks.antt`).
#[derive(Debug, Drop)]
pub struct Recorded {
    entries: Vec<Actor>,
    next: usize,
    standing: Standing,
    stops: u64,
}

impl Model for Recorded {
    ghost use Rattle.std.specs.Prelude.{◌^◌, ◌<◌, ◌≤◌, drop, vec_len};
    ghost use Rattle.schedules.specs.Recording.{Recording};

    ghost Value = { Recording };

    ghost view = { λ r.
        record { left = drop r.next r.entries.items; taken = r.next; standing = r.standing; stops = r.stops } };

    ghost invariant = { λ r. (r.next ≤ vec_len r.entries) × (vec_len r.entries < 2 ^ 32) };
}

impl Recorded {
    /// A schedule that has these entries left.
    pub fn new(entries: Vec<Actor>) -> Recorded
        requires { vec_len entries < 2 ^ 32 }
        ensures { result ≡ record { left = entries.items; taken = 0; standing = Running; stops = 0 } }
    {
        Recorded {
            entries,
            next: 0,
            standing: Standing::Running,
            stops: 0,
        }
    }

    /// How the last pick ended.
    pub fn standing(&self) -> Standing
        ensures { result ≡ self.now.standing }
    {
        self.standing
    }

    /// How many entries are not taken yet.
    pub fn left(&self) -> usize
        ensures { result ≡ length self.now.left }
    {
        self.entries.len() - self.next
    }

    /// The entry that comes next; `None` where no entry is left.
    fn next_entry(&self) -> Option<Actor>
        ensures { result ≡ slice_get self.now.left 0 }
    {
        self.entries.get(self.next).copied()
    }

    /// Stops, and says why.
    fn stop(&mut self, standing: Standing) -> Pick
        ensures stops { result ≡ Stop }
        ensures after { self.new ≡ record self.old { standing = standing; stops = one_more_stop self.old.stops } }
    {
        self.standing = standing;
        self.stops = self.stops.saturating_add(1);
        Pick::Stop
    }
}

impl Chooser for Recorded {
    ghost use Rattle.schedules.specs.Picks.{PicksRecorded};

    ghost stops = { λ r. r.stops };

    ghost picks = { PicksRecorded };

    fn pick(&mut self, enabled: &[Actor]) -> Pick {
        let Some(entry) = self.next_entry() else {
            return self.stop(Standing::Ended);
        };
        let Some(place) = place_of(entry, enabled) else {
            let entry = self.next as u32 + 1;
            return self.stop(Standing::NotEnabled { entry });
        };
        self.next += 1;
        self.standing = Standing::Running;
        Pick::At(place)
    }
}

/// The place of an actor in a list; `None` where it is not in the list.
fn place_of(actor: Actor, actors: &[Actor]) -> Option<usize>
    ensures place { IfSome result (λ place. IsFirstPlace actors.now place actor) }
    ensures inside { IfSome result (λ place. place < length actors.now) }
    ensures none { IfNone result (Contains actors.now actor → ⊥) }
{
    actors.iter().position(|other| *other == actor)
}

ghost use Rattle.std.specs.Prelude.{◌≡◌, ◌<◌, None, IfSome, length, position};
ghost use Rattle.sys_base.specs.Actors.{is_before};

use crate::chooser::{Chooser, Pick};
use std::marker::Model;
use sys_base::Actor;

/// The schedule that goes round: it takes the first enabled actor after the one that it took last, or else the first
/// of all. It never stops. Contracts see it as the actor that it took last.
#[derive(Debug, Drop)]
pub struct Round {
    last: Option<Actor>,
}

impl Model for Round {
    ghost use Rattle.std.specs.Prelude.{Option};
    ghost use Rattle.sys_base.specs.declared.actor.Actor.{Actor};

    ghost Value = { Option Actor };

    ghost view = { λ round. round.last };
}

impl Round {
    /// A schedule that has taken no actor.
    pub fn new() -> Round
        ensures { result ≡ None }
    {
        Round { last: None }
    }
}

impl Chooser for Round {
    ghost use Rattle.schedules.specs.Picks.{PicksRound};

    ghost stops = { λ _. 0 };

    ghost picks = { PicksRound };

    fn pick(&mut self, enabled: &[Actor]) -> Pick {
        let place = match self.last {
            Some(last) => place_after(last, enabled).unwrap_or(0),
            None => 0,
        };
        self.last = Some(enabled[place]);
        Pick::At(place)
    }
}

/// The place of the first actor after this one; `None` where there is none.
fn place_after(last: Actor, enabled: &[Actor]) -> Option<usize>
    ensures place { result ≡ position (is_before last) enabled.now }
    ensures inside { IfSome result (λ place. place < length enabled.now) }
{
    enabled.iter().position(|actor| last.is_before(*actor))
}

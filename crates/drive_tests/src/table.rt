//! A schedule that takes its places from a table.
use schedules::{Chooser, Pick};
use sys_base::Actor;

/// Picks the places of a table, each modulo the number of enabled actors, and stops at its tenth pick.
#[derive(Drop)]
pub struct Table {
    picks: u64,
    stops: u64,
}

impl Table {
    /// The schedule before its first pick.
    pub fn new() -> Table {
        Table { picks: 0, stops: 0 }
    }
}

const PLACES: [usize; 9] = [0, 1, 0, 1, 1, 0, 1, 0, 1];

impl Chooser for Table {
    ghost use Rattle.std.specs.Prelude.{⊤};
    ghost use Rattle.schedules.specs.Picks.{IsPlaceIn};

    ghost stops = { λ t. t.stops };

    ghost picks = { λ _ enabled pick _. IsPlaceIn enabled pick };

    fn pick(&mut self, enabled: &[Actor]) -> Pick {
        if self.picks < 9 {
            let place = PLACES[self.picks as usize] % enabled.len();
            self.picks += 1;
            Pick::At(place)
        } else {
            self.stops = self.stops.saturating_add(1);
            Pick::Stop
        }
    }
}

//! What each schedule picks.
ghost use Rattle.std.specs.Prelude.{ℕ};

use rand_core::{Rng, SeedableRng};
use rand_pcg::Lcg64Xsh32;
use schedules::{Chooser, High, Low, Pick, Recorded, Round, Seeded, Standing};
use std::test::Fail;
use sys_base::Actor;

const LIST: [Actor; 4] = [
    Actor::Cell(1),
    Actor::Forward(0, 1),
    Actor::Forward(2, 0),
    Actor::Bind(5),
];

/// A schedule of no rule: it stops at its third pick, and is not to be trusted in any other way.
struct Hostile {
    picks: u8,
    stops: u64,
}

impl Chooser for Hostile {
    ghost stops = { λ h. h.stops };

    ghost picks = { λ _ _ _ _. Unit {0} };

    fn pick(&mut self, enabled: &[Actor]) -> Pick {
        if self.picks == 2 {
            self.stops = self.stops.saturating_add(1);
            return Pick::Stop;
        }
        self.picks = self.picks.saturating_add(1);
        Pick::At(enabled.len() / 2)
    }
}

/// The answer of any schedule to the four actors.
fn answer<C: Chooser>(chooser: &mut C) -> Pick {
    chooser.pick(&LIST)
}

#[test]
fn sides_and_rounds(rt: HostRuntime) {
    assert_eq!(rt; answer(&mut Low), Pick::At(0));
    assert_eq!(rt; answer(&mut High), Pick::At(3));
    let mut round = Round::new();
    assert_eq!(rt; answer(&mut round), Pick::At(0));
    assert_eq!(rt; answer(&mut round), Pick::At(1));
    assert_eq!(rt; answer(&mut round), Pick::At(2));
    assert_eq!(rt; answer(&mut round), Pick::At(3));
    assert_eq!(rt; answer(&mut round), Pick::At(0));
    assert_eq!(rt; round.pick(&[Actor::Cell(0), Actor::Bind(9)]), Pick::At(1));
}

#[test]
fn draws(rt: HostRuntime) {
    let mut seeded = Seeded::new(5);
    let mut generator = Lcg64Xsh32::seed_from_u64(5);
    for _ in 0..3 {
        let place = generator.next_u32() as usize % 4;
        assert_eq!(rt; answer(&mut seeded), Pick::At(place));
    }
}

#[test]
fn records(rt: HostRuntime) -> Result<(), Fail> {
    let entries = [Actor::Forward(2, 0), Actor::Cell(1), Actor::Cell(9)].to_vec(rt.alloc())?;
    let mut recorded = Recorded::new(entries);
    assert_eq!(rt; recorded.standing(), Standing::Running);
    assert_eq!(rt; answer(&mut recorded), Pick::At(2));
    assert_eq!(rt; answer(&mut recorded), Pick::At(0));
    assert_eq!(rt; recorded.left(), 1);
    assert_eq!(rt; answer(&mut recorded), Pick::Stop);
    assert_eq!(rt; recorded.standing(), Standing::NotEnabled { entry: 3 });
    assert_eq!(rt; recorded.pick(&[Actor::Cell(9)]), Pick::At(0));
    assert_eq!(rt; recorded.standing(), Standing::Running);
    assert_eq!(rt; answer(&mut recorded), Pick::Stop);
    assert_eq!(rt; recorded.standing(), Standing::Ended);
    Ok(())
}

#[test]
fn stops_at_will(rt: HostRuntime) {
    let mut hostile = Hostile { picks: 0, stops: 0 };
    assert_eq!(rt; answer(&mut hostile), Pick::At(2));
    assert_eq!(rt; answer(&mut hostile), Pick::At(2));
    assert_eq!(rt; answer(&mut hostile), Pick::Stop);
    let Hostile { picks: _, stops } = hostile;
    assert_eq!(rt; stops, 1);
}

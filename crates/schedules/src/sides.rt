use crate::chooser::{Chooser, Pick};
use sys_base::Actor;

/// The schedule that always takes the first enabled actor. It never stops.
#[derive(Clone, Copy, Debug, PartialEq, Eq)]
pub struct Low;

/// The schedule that always takes the last enabled actor. It never stops.
#[derive(Clone, Copy, Debug, PartialEq, Eq)]
pub struct High;

impl Chooser for Low {
    ghost use Rattle.std.specs.Prelude.{◌≡◌};
    ghost use Rattle.schedules.specs.declared.chooser.Pick.TheVariants.{At};

    ghost stops = { λ _. 0 };

    ghost picks = { λ _ enabled pick _. pick ≡ At 0 };

    fn pick(&mut self, _enabled: &[Actor]) -> Pick {
        Pick::At(0)
    }
}

impl Chooser for High {
    ghost use Rattle.std.specs.Prelude.{◌≡◌, ◌-◌, length};
    ghost use Rattle.schedules.specs.declared.chooser.Pick.TheVariants.{At};

    ghost stops = { λ _. 0 };

    ghost picks = { λ _ enabled pick _. pick ≡ At (length enabled - 1) };

    fn pick(&mut self, enabled: &[Actor]) -> Pick {
        Pick::At(enabled.len() - 1)
    }
}

ghost use Rattle.std.specs.Prelude.{◌≡◌};
ghost use Rattle.rand_core.specs.Pcg32Seed.{pcg32_seed};
ghost use Rattle.rand_pcg.specs.Pcg.{pcg32_of_seed};

use crate::chooser::{Chooser, Pick};
use rand_core::SeedableRng;
use rand_core::utils::NextWord;
use rand_pcg::Lcg64Xsh32;
use std::marker::Model;
use sys_base::Actor;

/// The schedule that draws each place: the next 32-bit word of a generator, modulo the number of enabled actors. It
/// never stops. Contracts see it as its generator.
#[derive(Debug, Drop)]
pub struct Seeded {
    generator: Lcg64Xsh32,
}

impl Model for Seeded {
    ghost use Rattle.rand_pcg.specs.Lcg.{Lcg};

    ghost Value = { Lcg };

    ghost view = { λ seeded. seeded.generator };
}

impl Seeded {
    /// A schedule whose generator is made of this number.
    pub fn new(seed: u64) -> Seeded
        ensures { result ≡ pcg32_of_seed (pcg32_seed 16 seed) }
    {
        Seeded {
            generator: Lcg64Xsh32::seed_from_u64(seed),
        }
    }
}

impl Chooser for Seeded {
    ghost use Rattle.schedules.specs.Picks.{PicksDrawn};

    ghost stops = { λ _. 0 };

    ghost picks = { PicksDrawn };

    fn pick(&mut self, enabled: &[Actor]) -> Pick {
        let word = self.generator.next_word();
        Pick::At(word as usize % enabled.len())
    }
}

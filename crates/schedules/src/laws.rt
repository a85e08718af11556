ghost use Rattle.std.specs.Prelude.{◌≡◌, ◌⊎◌, ℕ, List};
ghost use Rattle.schedules.specs.Entries.{HasEntries, IsFirstBadLine};
ghost use Rattle.sys_base.specs.declared.actor.Actor.{Actor};

/// A law: any bytes have just one list of entries or just one first malformed line, and never both.
pub fn one_reading()
    ensures some { (bytes : List ℕ)
        → ((entries : List Actor) × HasEntries bytes entries) ⊎ ((n : ℕ) × IsFirstBadLine bytes n) }
    ensures entries { (bytes : List ℕ) (es fs : List Actor) → HasEntries bytes es → HasEntries bytes fs → es ≡ fs }
    ensures line { (bytes : List ℕ) (m n : ℕ) → IsFirstBadLine bytes m → IsFirstBadLine bytes n → m ≡ n }
    ensures apart { (bytes : List ℕ) (es : List Actor) (n : ℕ) → HasEntries bytes es → IsFirstBadLine bytes n → ⊥ }
{}

ghost use Rattle.std.specs.Prelude.{◌≡◌, ℕ, ◌^◌, ◌<◌, ◌≤◌, List, Option, IsErrOf};
ghost use Rattle.sys_outside.specs.Fault.{Rose};
ghost use Rattle.sys_outside.specs.Shelf.{Fetches};

use std::alloc::{AllocError, AllocFailed};

/// How much of a file was fetched.
#[derive(Clone, Copy, Debug, PartialEq, Eq)]
pub enum Fetched {
    /// All of it.
    Whole,
    /// Its first bytes, one more than the limit: the file is longer than the limit.
    Longer,
}

/// Why a file wasn't fetched.
#[derive(Clone, Copy, Debug, PartialEq, Eq)]
pub enum ShelfError {
    /// The shelf couldn't give the file.
    Failed,
    /// Memory ran out.
    Memory,
}

impl From<AllocError> for ShelfError {
    ghost use Rattle.sys_outside.specs.declared.shelf.ShelfError.TheVariants.{Memory};

    ghost from_gives = { λ _ e. e ≡ Memory };

    fn from(_error: AllocError) -> ShelfError {
        ShelfError::Memory
    }
}

impl<T: Drop> From<AllocFailed<T>> for ShelfError {
    ghost use Rattle.sys_outside.specs.declared.shelf.ShelfError.TheVariants.{Memory};

    ghost from_gives = { λ _ e. e ≡ Memory };

    fn from(_error: AllocFailed<T>) -> ShelfError {
        ShelfError::Memory
    }
}

/// Where files are fetched from.
pub trait Shelf {
    // The bytes of the file of a name, where the shelf tells them.
    ghost held: { Self → List ℕ → Option (List ℕ) };

    // How often fetching the file of a name has failed. It never falls.
    ghost faults: { Self → List ℕ → ℕ };

    /// Leaves the file of this name in `into`, or its first `limit + 1` bytes where it is longer than `limit`. After an
    /// error the bytes in `into` are unknown.
    fn fetch(&mut self, name: &str, limit: usize, into: &mut Vec<u8>) -> Result<Fetched, ShelfError>
        requires { limit < 2 ^ 32 }
        ensures bytes { Fetches (held self.old name.now) limit into.new.items result }
        ensures held { held self.new ≡ held self.old }
        ensures later { (n : List ℕ) → faults self.old n ≤ faults self.new n }

        // A fetch fails only where the count of its own name rose.
        ensures failed { IsErrOf result ShelfError.Failed → Rose (faults self.old name.now)
            (faults self.new name.now) };
}

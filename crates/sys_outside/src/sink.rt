ghost use Rattle.std.specs.Prelude.{◌≡◌, ℕ, ◌≤◌, List, Option, IsErrOf};
ghost use Rattle.sys_outside.specs.Fault.{Rose};
ghost use Rattle.sys_outside.specs.Sink.{Puts, wants_after_put};

use std::alloc::AllocError;

/// Why a sink didn't take all bytes.
#[derive(Clone, Copy, Debug, PartialEq, Eq)]
pub enum SinkError {
    /// The sink took a first part of the bytes, maybe none, and no more.
    Failed,
    /// Memory ran out. The sink took nothing.
    Memory,
}

impl From<AllocError> for SinkError {
    ghost use Rattle.sys_outside.specs.declared.sink.SinkError.TheVariants.{Memory};

    ghost from_gives = { λ _ e. e ≡ Memory };

    fn from(_error: AllocError) -> SinkError {
        SinkError::Memory
    }
}

/// Where bytes are put.
pub trait Sink {
    // All bytes that the sink took, where it tells them.
    ghost taken: { Self → Option (List ℕ) };

    // How often a put has failed. It never falls.
    ghost faults: { Self → ℕ };

    // How often a put has wanted memory.
    ghost wants: { Self → ℕ };

    /// Takes all of `bytes`, after what it took before.
    fn put(&mut self, bytes: &[u8]) -> Result<(), SinkError>
        ensures bytes { Puts (taken self.old) (taken self.new) bytes.now result }
        ensures later { faults self.old ≤ faults self.new }

        // A put fails only where the count of faults rose, and wants memory only where that stands.
        ensures failed { IsErrOf result SinkError.Failed → Rose (faults self.old) (faults self.new) }
        ensures stands { IsErrOf result SinkError.Memory → faults self.new ≡ faults self.old }
        ensures wants { wants self.new ≡ wants_after_put (wants self.old) result };
}

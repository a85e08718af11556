ghost use Rattle.std.specs.Prelude.{◌≡◌};
ghost use Rattle.cell_parser.specs.declared.fault.Fault.TheVariants as F;

use std::alloc::{AllocError, AllocFailed};
use sys_base::Memory;

/// Why a part of the tree is not read.
#[derive(Clone, Copy, Debug, PartialEq, Eq)]
pub(crate) enum Fault {
    /// Memory ran out.
    Memory,
    /// A token cannot stand where this many tokens are left, itself included; 0 where the tokens end too early.
    Unexpected { left: usize },
}

impl From<AllocError> for Fault {
    ghost from_gives = { λ _ e. e ≡ F.Memory };

    fn from(_error: AllocError) -> Fault {
        Fault::Memory
    }
}

impl<T: Drop> From<AllocFailed<T>> for Fault {
    ghost from_gives = { λ _ e. e ≡ F.Memory };

    fn from(_error: AllocFailed<T>) -> Fault {
        Fault::Memory
    }
}

impl From<Memory> for Fault {
    ghost from_gives = { λ _ e. e ≡ F.Memory };

    fn from(_memory: Memory) -> Fault {
        Fault::Memory
    }
}

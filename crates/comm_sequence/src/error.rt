ghost use Rattle.std.specs.Prelude.{◌≡◌};
ghost use Rattle.comm_sequence.specs.declared.error.CommError.TheVariants as C;

use std::alloc::{AllocError, AllocFailed};
use sys_base::Memory;
use thiserror::Error;

/// Why the cells of a program have no sequences: arms that communicate differently, or want of memory.
#[derive(Clone, Copy, Debug, PartialEq, Eq, Error)]
pub enum CommError {
    /// E15: the arms of an `if` on this line, from 1, in this cell, by its index, communicate differently.
    #[error("line {line} in cell {cell}: the arms communicate differently")]
    ArmsDiffer { cell: u16, line: u32 },
    /// Memory ran out, which may happen to any program.
    #[error("out of memory")]
    Memory,
}

impl From<AllocError> for CommError {
    ghost from_gives = { λ _ e. e ≡ C.Memory };

    fn from(_error: AllocError) -> CommError {
        CommError::Memory
    }
}

impl<T: Drop> From<AllocFailed<T>> for CommError {
    ghost from_gives = { λ _ e. e ≡ C.Memory };

    fn from(_error: AllocFailed<T>) -> CommError {
        CommError::Memory
    }
}

impl From<Memory> for CommError {
    ghost from_gives = { λ _ e. e ≡ C.Memory };

    fn from(_error: Memory) -> CommError {
        CommError::Memory
    }
}

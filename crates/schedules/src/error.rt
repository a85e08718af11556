ghost use Rattle.std.specs.Prelude.{◌≡◌};
ghost use Rattle.schedules.specs.declared.error.ScheduleError.TheVariants as E;

use std::alloc::{AllocError, AllocFailed};
use thiserror::Error;

/// Why bytes are no schedule: the first malformed line, or want of memory.
#[derive(Clone, Copy, Debug, PartialEq, Eq, Error)]
pub enum ScheduleError {
    /// This line, from 1, is the first malformed one.
    #[error("line {line} is malformed")]
    BadLine { line: u32 },
    /// Memory ran out, which may happen to any bytes.
    #[error("out of memory")]
    Memory,
}

impl From<AllocError> for ScheduleError {
    ghost from_gives = { λ _ e. e ≡ E.Memory };

    fn from(_error: AllocError) -> ScheduleError {
        ScheduleError::Memory
    }
}

impl<T: Drop> From<AllocFailed<T>> for ScheduleError {
    ghost from_gives = { λ _ e. e ≡ E.Memory };

    fn from(_error: AllocFailed<T>) -> ScheduleError {
        ScheduleError::Memory
    }
}

ghost use Rattle.std.specs.Prelude.{◌≡◌};

use std::alloc::{AllocError, AllocFailed};
use sys_base::Memory;

/// What files decide of a command.
#[derive(Clone, Copy)]
pub enum Verdict {
    Done,
    Refused,
    BadInput,
    Unfinished,
    BadSchedule,
}

/// Where a text goes.
#[derive(Clone, Copy)]
pub enum Side {
    Out,
    Err,
}

/// What a command says.
#[derive(Drop)]
pub struct Answer {
    pub verdict: Verdict,
    pub side: Side,
    pub text: Vec<u8>,
}

/// Why a command goes no further.
#[derive(Drop)]
pub enum Stop {
    /// A file couldn't be read; the line on it.
    Unread(Vec<u8>),
    /// Memory ran out.
    Memory,
}

impl From<Memory> for Stop {
    ghost use Rattle.systole_top.specs.declared.answer.Stop.TheVariants as Stop;

    ghost from_gives = { λ _ stop. stop ≡ Stop.Memory };

    fn from(_error: Memory) -> Stop {
        Stop::Memory
    }
}

impl From<AllocError> for Stop {
    ghost use Rattle.systole_top.specs.declared.answer.Stop.TheVariants as Stop;

    ghost from_gives = { λ _ stop. stop ≡ Stop.Memory };

    fn from(_error: AllocError) -> Stop {
        Stop::Memory
    }
}

impl<T: Drop> From<AllocFailed<T>> for Stop {
    ghost use Rattle.systole_top.specs.declared.answer.Stop.TheVariants as Stop;

    ghost from_gives = { λ _ stop. stop ≡ Stop.Memory };

    fn from(_error: AllocFailed<T>) -> Stop {
        Stop::Memory
    }
}

ghost use Rattle.std.specs.Prelude.{◌≡◌};
ghost use Rattle.stream_io.specs.declared.error.InputError.TheVariants as E;

use std::alloc::{AllocError, AllocFailed};
use sys_base::{Items, Memory};

/// Why a file is no input: the first rule that it breaks (`docs/formats.md`, "Input"), or want of memory.
#[derive(Debug, Drop)]
pub enum InputError {
    /// The bytes are not UTF-8, or not JSON.
    NotJson,
    /// The value is no object.
    NotObject,
    /// The key names no cell of the grid.
    UnknownCell { key: Items<u8> },
    /// The value at the key is no list.
    NotList { key: Items<u8> },
    /// The item at this place, from 0, of the list at the key is no integer of 64 bits.
    NotInteger { key: Items<u8>, at: u32 },
    /// The cell takes so many words, and the file has so many for it.
    Count { cell: u16, need: u32, has: u32 },
    /// Memory ran out, which may happen to any file. A list of 2^32 items or more is refused so too.
    Memory,
}

impl From<AllocError> for InputError {
    ghost from_gives = { λ _ e. e ≡ E.Memory };

    fn from(_error: AllocError) -> InputError {
        InputError::Memory
    }
}

impl<T: Drop> From<AllocFailed<T>> for InputError {
    ghost from_gives = { λ _ e. e ≡ E.Memory };

    fn from(_error: AllocFailed<T>) -> InputError {
        InputError::Memory
    }
}

impl From<Memory> for InputError {
    ghost from_gives = { λ _ e. e ≡ E.Memory };

    fn from(_error: Memory) -> InputError {
        InputError::Memory
    }
}

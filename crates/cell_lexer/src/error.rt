ghost use Rattle.std.specs.Prelude.{◌≡◌};
ghost use Rattle.cell_lexer.specs.declared.error.LexError.TheVariants as E;

use std::alloc::{AllocError, AllocFailed};
use thiserror::Error;

/// Why a text has no tokens: the first thing that is wrong in it, or want of memory.
#[derive(Clone, Copy, Debug, PartialEq, Eq, Error)]
pub enum LexError {
    /// A byte that begins no token and separates none, by its place in the text.
    #[error("byte at {at} is not part of the language")]
    BadByte { at: u32 },
    /// A number above 9223372036854775807.
    #[error("line {line}: the number is too great")]
    BigNumber { line: u32 },
    /// A name of more than 32 bytes.
    #[error("line {line}: the name is too long")]
    LongName { line: u32 },
    /// Memory ran out, which may happen to any text.
    #[error("out of memory")]
    Memory,
}

impl From<AllocError> for LexError {
    ghost from_gives = { λ _ e. e ≡ E.Memory };

    fn from(_error: AllocError) -> LexError {
        LexError::Memory
    }
}

impl<T: Drop> From<AllocFailed<T>> for LexError {
    ghost from_gives = { λ _ e. e ≡ E.Memory };

    fn from(_error: AllocFailed<T>) -> LexError {
        LexError::Memory
    }
}

ghost use Rattle.std.specs.Prelude.{◌≡◌};
ghost use Rattle.cell_parser.specs.declared.error.ParseError.TheVariants as E;

use std::alloc::{AllocError, AllocFailed};
use thiserror::Error;

/// Why the tokens of a text are no source, or are refused, or want of memory.
#[derive(Clone, Copy, Debug, PartialEq, Eq, Error)]
pub enum ParseError {
    /// More than 256 tokens without `;`, `{` or `}` (E06).
    #[error("line {line}: too many tokens without ; {{ or }}")]
    LongPiece { line: u32 },
    /// More than 17 open braces (E07).
    #[error("line {line}: too many braces are open")]
    Braces { line: u32 },
    /// The first token that can't stand where it stands, or the end of the text (E02).
    #[error("line {line} column {column}: not expected here")]
    Unexpected { line: u32, column: u32 },
    /// Memory ran out, which may happen to any text.
    #[error("out of memory")]
    Memory,
}

impl From<AllocError> for ParseError {
    ghost from_gives = { λ _ e. e ≡ E.Memory };

    fn from(_error: AllocError) -> ParseError {
        ParseError::Memory
    }
}

impl<T: Drop> From<AllocFailed<T>> for ParseError {
    ghost from_gives = { λ _ e. e ≡ E.Memory };

    fn from(_error: AllocFailed<T>) -> ParseError {
        ParseError::Memory
    }
}

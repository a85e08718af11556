//! What the errors of the layers below come to.
ghost use Rattle.std.specs.Prelude.{◌≡◌};
ghost use Rattle.accept.specs.bodies.Reading.{misspelt, misplaced, unlike};
ghost use Rattle.accept.specs.declared.building.AcceptError.TheVariants as A;

use crate::building::AcceptError;
use cell_lexer::LexError;
use cell_parser::ParseError;
use comm_sequence::CommError;
use refusals::Refusal;
use std::alloc::AllocFailed;
use sys_base::Memory;

impl From<Memory> for AcceptError {
    ghost from_gives = { λ _ e. e ≡ A.Memory };

    fn from(_error: Memory) -> AcceptError {
        AcceptError::Memory
    }
}

impl<T: Drop> From<AllocFailed<T>> for AcceptError {
    ghost from_gives = { λ _ e. e ≡ A.Memory };

    fn from(_error: AllocFailed<T>) -> AcceptError {
        AcceptError::Memory
    }
}

impl From<LexError> for AcceptError {
    ghost from_gives = { λ error e. e ≡ misspelt error };

    fn from(error: LexError) -> AcceptError {
        match error {
            LexError::BadByte { at } => AcceptError::Refused(Refusal::BadByte { at }),
            LexError::BigNumber { line } => AcceptError::Refused(Refusal::BigNumber { line }),
            LexError::LongName { line } => AcceptError::Refused(Refusal::LongName { line }),
            LexError::Memory => AcceptError::Memory,
        }
    }
}

impl From<ParseError> for AcceptError {
    ghost from_gives = { λ error e. e ≡ misplaced error };

    fn from(error: ParseError) -> AcceptError {
        match error {
            ParseError::LongPiece { line } => AcceptError::Refused(Refusal::LongPiece { line }),
            ParseError::Braces { line } => AcceptError::Refused(Refusal::Braces { line }),
            ParseError::Unexpected { line, column } => {
                AcceptError::Refused(Refusal::Unexpected { line, column })
            }
            ParseError::Memory => AcceptError::Memory,
        }
    }
}

impl From<CommError> for AcceptError {
    ghost from_gives = { λ error e. e ≡ unlike error };

    fn from(error: CommError) -> AcceptError {
        match error {
            CommError::ArmsDiffer { line, .. } => {
                AcceptError::Refused(Refusal::ArmsDiffer { line })
            }
            CommError::Memory => AcceptError::Memory,
        }
    }
}

//! The tokens of a source text, or the first place where it has none.
#![tactic(auto)]

mod error;
mod flaw;
mod gaps;
mod laws;
mod limits;
mod marks;
mod numbers;
mod place;
mod scan;
mod token;
mod words;

pub use error::LexError;
pub use laws::{few_tokens, one_outcome, one_spelling, read_back, some_outcome};
pub use limits::{GREATEST_NUMBER, OPEN_BRACES, PIECE_TOKENS};
pub use place::{Position, end_of};
pub use scan::tokens;
pub use sys_base::Key;
pub use token::{Mark, Sort, Token};

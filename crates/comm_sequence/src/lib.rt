//! What cells communicate: their lists of writes and reads, lengths of messages, counts of words, and the cost of a
//! program.
#![tactic(auto)]

mod comm;
mod costs;
mod counting;
mod cursor;
mod entry;
mod error;
mod gathering;
mod laws;
mod part;
mod seqs;
mod trimming;
mod unrolling;
mod walking;

pub use comm::Comm;
pub use costs::cost;
pub use cursor::Cursor;
pub use error::CommError;
pub use gathering::sequences;
pub use laws::{alike_where_none_differ, sound_programs_have_sequences};
pub use part::Part;
pub use seqs::Seqs;

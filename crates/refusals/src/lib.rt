//! Why a source is refused: the number of each refusal, what it holds, the line that says it, and its explanation.
#![tactic(auto)]

mod explanation;
mod line;
mod refusal;
mod walk;

pub use explanation::{explain, text};
pub use refusal::{Refusal, Twice};
pub use walk::WalkLine;

//! The files and lines in JSON: the input of a run, and the lines that say how a run or a meaning came out.
#![tactic(auto)]

mod error;
mod inputs;
mod keys;
mod laws;
mod members;
mod report;
mod results;
mod words;

pub use error::InputError;
pub use inputs::read_inputs;
pub use laws::{one_input, one_line};
pub use report::Report;
pub use results::{meaning_text, result_text};

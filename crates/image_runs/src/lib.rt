//! The run that `run` makes over an image, and its answer (`run_words`, `specs/Answers.antt`).
#![tactic(auto)]

mod answering;
mod making;
mod reading;
mod reporting;
mod telling;

pub use answering::{Choice, RunAnswer, answer_run};

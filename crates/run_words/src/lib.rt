//! What the command `run` says of a run: its result line and its record (`specs/Results.antt`), the run that a
//! schedule makes and how it ends (`specs/Schedules.antt`), and the answer (`specs/Answers.antt`). There is just one
//! of each.
#![tactic(auto)]

mod laws;
mod verdict;

pub use laws::{
    each_schedule_makes_one_run, records_replay, runs_have_one_answer,
    schedule_files_have_one_reading, schedules_make_runs,
};
pub use verdict::RunVerdict;

//! The meaning of a program: what its cells emit where each runs alone, over streams of words on which all agree
//! (`comm_sequence`, `specs/Meaning.antt`). There is no queue, no label and no code in it.
#![tactic(auto)]

mod array;
mod choices;
mod laws;
mod runner;
mod store;
mod task;

pub use array::meaning;
pub use laws::{cells_need_only_what_they_read, programs_mean_one_thing};

//! Crossing-off for a buffer: an order in which all writes and reads of a program can be crossed off, or what is left
//! where there is none, and who waits there for whom.
#![tactic(auto)]

mod answer;
mod laws;
mod rests;
mod waiting;
mod waiting_set;
mod waits;
mod wanted;
mod worklist;

pub use answer::{Crossed, Residue};
pub use laws::{
    choice_does_not_matter, nothing_left_is_an_order, one_greedy_order, one_walk,
    orders_leave_nothing, some_outcome,
};
pub use waits::{Wait, WaitWalk, WalkEnd, walk};
pub use worklist::cross;

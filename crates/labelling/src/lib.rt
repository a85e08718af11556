//! Labels of messages: whether given ones never fall along a cell, and those that are proposed.
#![tactic(auto)]

mod falls;
mod laws;
mod order;
mod proposal;
mod ranks;
mod sets;

pub use falls::{Fall, check};
pub use laws::{
    consistent_or_fall, equal_where_neither_is_later, one_proposal, proposed_are_consistent,
    proposed_labels_are_finest, some_proposal,
};
pub use proposal::propose;

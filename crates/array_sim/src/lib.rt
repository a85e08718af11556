//! The simulator of an array: it runs an image step by step, whatever the order of the steps
//! (`specs/Simulations.antt`).
#![tactic(auto)]

mod actors;
mod array;
mod cells;
mod sim;
mod wires;

pub use sim::Sim;

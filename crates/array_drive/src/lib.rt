//! The runs of an array: a schedule drives a simulation, and a trail records the actors that it picked
//! (`specs/Driving.antt`).
#![tactic(auto)]

mod driving;
mod trail;

pub use driving::{Driven, drive};
pub use trail::Trail;

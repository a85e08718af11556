//! The queues of an array that runs an image: which messages are bound, how far their words have come, and the words
//! themselves, in the slots of the links (`specs/Fabrics.antt`, `specs/Keeping.antt`).
#![tactic(auto)]

mod fabric;
mod link;
mod tables;
mod track;

pub use fabric::Fabric;

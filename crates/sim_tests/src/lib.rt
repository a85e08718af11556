//! Tests of the simulator of an array. They stand apart, since a crate with tests is proved twice.
#![tactic(auto)]

#[cfg(test)]
mod images;
#[cfg(test)]
mod runs;

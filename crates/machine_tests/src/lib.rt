//! Tests of the machine of a cell over a small port. They stand apart, since a crate with tests is proved twice.
#![tactic(auto)]

#[cfg(test)]
mod images;
#[cfg(test)]
mod line;
#[cfg(test)]
mod runs;

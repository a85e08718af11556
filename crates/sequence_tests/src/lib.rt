//! Tests of the lists of cells that are made from parts. They stand apart, since a crate with tests is proved twice.
#![tactic(auto)]

#[cfg(test)]
mod parts;

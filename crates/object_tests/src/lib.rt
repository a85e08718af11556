//! Tests of objects as text. They stand apart, since a crate with tests is proved twice.
#![tactic(auto)]

#[cfg(test)]
mod objects;
#[cfg(test)]
mod pipe;

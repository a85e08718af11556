//! Tests of the meaning of programs. They stand apart, since a crate with tests is proved twice.
#![tactic(auto)]

#[cfg(test)]
mod meanings;

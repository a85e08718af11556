//! Tests of the code of cells: what is emitted for sources, and what the machine does on it. They stand apart, since a
//! crate with tests is proved twice.
#![tactic(auto)]

#[cfg(test)]
mod runs;
#[cfg(test)]
mod sources;
#[cfg(test)]
mod statements;

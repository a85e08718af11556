//! Tests of `build` and `systole`, as tables. They stand apart, since a crate with tests is proved twice.
#![tactic(auto)]

#[cfg(test)]
mod acceptance;
#[cfg(test)]
mod answers;
#[cfg(test)]
mod commands;

//! Tests of schedules, inputs and results as text, as tables. They stand apart, since a crate with tests is proved
//! twice.
#![tactic(auto)]

#[cfg(test)]
mod entries;
#[cfg(test)]
mod inputs;
#[cfg(test)]
mod picks;
#[cfg(test)]
mod results;

//! Tests of the queues of small images. They stand apart, since a crate with tests is proved twice.
#![tactic(auto)]

#[cfg(test)]
mod calls;
#[cfg(test)]
mod images;
#[cfg(test)]
mod rows;

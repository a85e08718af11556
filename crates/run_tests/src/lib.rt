//! Every run of small images is explored, by a plain program that keeps each queue as a list and takes the steps of the
//! array (`docs/runs.md`) one by one. The tests stand apart, since a crate with tests is proved twice.
#![tactic(auto)]

#[cfg(test)]
mod arrays;
#[cfg(test)]
mod cells;
#[cfg(test)]
mod exploring;
#[cfg(test)]
mod images;
#[cfg(test)]
mod rows;

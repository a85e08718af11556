//! Schedules drive the images of small sources. The tests stand apart, above the crate that builds the images, since a
//! crate with tests is proved twice.
#![tactic(auto)]

#[cfg(test)]
mod images;
#[cfg(test)]
mod rows;
#[cfg(test)]
mod running;
#[cfg(test)]
mod table;

//! Sources of generated pairs: a word is written in one cell and read in another, over and over, by drawn messages.
#![tactic(auto)]

mod body;
mod cells;
mod drawing;
mod generating;
mod messages;
mod names;
mod square;

pub use generating::generate;

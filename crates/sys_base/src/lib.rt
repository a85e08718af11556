//! What every layer shares: words and their arithmetic, names, the grid, actors, limits, and want of memory.
#![tactic(auto)]

mod actor;
mod arithmetic;
pub mod bytes;
mod grid;
mod items;
mod key;
mod kinds;
mod limits;
mod memory;
mod name;
mod places;
mod streams;
mod word;

pub use actor::Actor;
pub use arithmetic::{apply, negate};
pub use grid::Grid;
pub use items::Items;
pub use key::Key;
pub use kinds::{Dir, Kind, Limit, Op};
pub use limits::{
    BUFFER, CELLS, INPUT_BYTES, LABEL, LINKS, MESSAGES, NAME_BYTES, OBJECT_BYTES, QUEUES,
    SCHEDULE_BYTES, SIDE, SOURCE_BYTES, STEPS, TURNS, VARIABLES, WORDS,
};
pub use memory::Memory;
pub use name::Name;
pub use places::{CellName, LinkName};
pub use streams::{Inputs, Outputs};
pub use word::{Fault, Word};

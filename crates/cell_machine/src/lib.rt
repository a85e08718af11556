//! The machine of a cell: it executes the code of a cell image, one instruction a step, over a port to the cell's
//! messages.
#![tactic(auto)]

mod choices;
mod port;
mod registers;
mod state;
mod step;

pub use port::Port;
pub use state::CellState;
pub use step::CellStep;

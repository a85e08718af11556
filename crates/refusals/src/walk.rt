ghost use Rattle.std.specs.Prelude.{Some};
ghost use Rattle.refusals.specs.Explanations.{walk_text};

use std::fmt;
use sys_base::{CellName, Name};

/// A line of the walk from cell to cell that shows why there is no order for a program's buffer.
#[derive(Debug, Drop)]
pub enum WalkLine {
    /// The cell waits to write the message to its receiver.
    WaitsToWrite {
        cell: CellName,
        message: Name,
        receiver: CellName,
    },
    /// The cell waits to read the message from its sender.
    WaitsToRead {
        cell: CellName,
        message: Name,
        sender: CellName,
    },
    /// The walk comes back to this cell, and ends.
    Again(CellName),
    /// The walk comes to this cell, which has nothing left, and ends.
    NothingLeft(CellName),
}

impl fmt::Display for WalkLine {
    ghost output = { λ line. Some (walk_text line) };

    #[tactic(auto, unfolding(crate::specs::Explanations::walk_text))]
    fn fmt<W: fmt::Write>(&self, f: &mut fmt::Formatter<W>) -> fmt::Result {
        match self {
            WalkLine::WaitsToWrite {
                cell,
                message,
                receiver,
            } => write!(f, "{cell} waits to write {message} to {receiver}"),
            WalkLine::WaitsToRead {
                cell,
                message,
                sender,
            } => write!(f, "{cell} waits to read {message} from {sender}"),
            WalkLine::Again(cell) => write!(f, "{cell} again"),
            WalkLine::NothingLeft(cell) => write!(f, "{cell} has nothing left"),
        }
    }
}

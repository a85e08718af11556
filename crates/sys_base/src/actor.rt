ghost use Rattle.std.specs.Prelude.{◌≡◌, Some};
ghost use Rattle.sys_base.specs.Actors.{actor_text, is_before};

use std::fmt;

/// What can take a step of the array (`docs/model.md`, "Steps"). Actors stand in this order: cells by index, then
/// forwards by message and hop, then links by id. They are printed as `c0`, `f2.1` and `b7`.
#[derive(Clone, Copy, Debug, PartialEq, Eq, PartialOrd, Ord)]
pub enum Actor {
    /// The cell with this index executes one instruction.
    Cell(u16),
    /// A word of this message moves on from this hop of its route, from 0, to the next one.
    Forward(u16, u16),
    /// The link with this id binds its next group of messages.
    Bind(u16),
}

impl Actor {
    /// Whether this actor stands before the other one.
    pub fn is_before(self, other: Actor) -> bool
        ensures { result ≡ is_before self other }
    {
        self < other
    }
}

impl fmt::Display for Actor {
    ghost output = { λ actor. Some (actor_text actor) };

    fn fmt<W: fmt::Write>(&self, f: &mut fmt::Formatter<W>) -> fmt::Result {
        match *self {
            Actor::Cell(cell) => write!(f, "c{cell}"),
            Actor::Forward(message, hop) => write!(f, "f{message}.{hop}"),
            Actor::Bind(link) => write!(f, "b{link}"),
        }
    }
}

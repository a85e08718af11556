ghost use Rattle.std.specs.Prelude.{◌≡◌};
ghost use Rattle.cell_types.specs.declared.error.StaticError.TheVariants as E;

use std::alloc::{AllocError, AllocFailed};
use sys_base::{Limit, Memory, Name};

/// The first thing that is wrong with a source whose grammar is right (`docs/refusals.md`, "Statics, in file order"),
/// or want of memory.
///
/// Each `line` is that of the declaration or the statement at fault, as the syntax tree has it; lines count from 1
/// (`docs/language.md`, "Tokens"). In what `resolve` gives, the index of a cell is below the number of cells, and the
/// id of a link below four times that number.
#[derive(Debug, Drop)]
pub enum StaticError {
    /// E10: a number is outside a limit of the language, or a declaration is the first too many (`docs/language.md`,
    /// "Limits").
    Limit {
        limit: Limit,
        line: u32,
    },
    /// E11: a link, a cell or a name is declared that is declared already.
    Twice {
        what: What,
        line: u32,
    },
    /// E12: a cell is outside the grid, or a `link` line names no link of it.
    OutsideGrid {
        line: u32,
    },
    /// E13: the sender of the message `name` is its receiver.
    SelfMessage {
        name: Name,
        line: u32,
    },
    /// E14: a name means nothing at its place (`docs/language.md`, "Names and what they mean").
    Unknown {
        name: Name,
        line: u32,
    },
    /// E16: where `sends`, a cell writes the message `name` and does not send it; else it reads the message and does
    /// not receive it. The cell is given by its index.
    WrongEnd {
        name: Name,
        cell: u16,
        sends: bool,
        line: u32,
    },
    /// E17: a name is of another kind, `found`, than the one that is wanted at its place.
    WrongKind {
        name: Name,
        found: Found,
        line: u32,
    },
    /// E18, E19 and E20: the first fault in the walk of the route of the message `name`.
    Route {
        name: Name,
        error: RouteFault,
        line: u32,
    },
    /// Memory ran out, which may happen to any source.
    Memory,
}

/// What is declared twice.
#[derive(Debug, Drop)]
pub enum What {
    /// A variable, an array, a counter or a message, by its name.
    Named(Name),
    /// A cell, by its index.
    Cell(u16),
    /// A link, by its id.
    Link(u16),
}

/// What a name means.
#[derive(Clone, Copy, Debug, PartialEq, Eq)]
pub enum Found {
    Message,
    Variable,
    Array,
    Counter,
}

/// The first fault in the walk of a route (`docs/model.md`, "Routes").
#[derive(Clone, Copy, Debug, PartialEq, Eq)]
pub enum RouteFault {
    /// E18: a direction has no link where the walk has come to.
    LeavesGrid,
    /// E20: the walk goes over a link, by its id, that it has used before.
    LinkTwice { link: u16 },
    /// E19: the walk ends at another cell than the receiver.
    WrongEnd,
}

impl From<AllocError> for StaticError {
    ghost from_gives = { λ _ e. e ≡ E.Memory };

    fn from(_error: AllocError) -> StaticError {
        StaticError::Memory
    }
}

impl<T: Drop> From<AllocFailed<T>> for StaticError {
    ghost from_gives = { λ _ e. e ≡ E.Memory };

    fn from(_error: AllocFailed<T>) -> StaticError {
        StaticError::Memory
    }
}

impl From<Memory> for StaticError {
    ghost from_gives = { λ _ e. e ≡ E.Memory };

    fn from(_error: Memory) -> StaticError {
        StaticError::Memory
    }
}

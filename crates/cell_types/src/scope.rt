ghost use Rattle.std.specs.Prelude.{◌-◌, ◌≤◌, length};
ghost use Rattle.cell_lexer.specs.declared.limits.TheConstants.{OPEN_BRACES};

mod counters;
mod meanings;
mod naming;

use crate::table::{Entry, MessageTable};
use crate::variables::Variables;
use sys_base::Name;

/// What statements at a place can name: all messages, the variables of their cell, and the counters of the loops
/// around the place, the outermost first.
#[derive(Drop)]
pub(crate) struct Scope<'a> {
    cell: u16,
    messages: &'a MessageTable<'a>,
    variables: Variables<'a>,
    counters: Vec<Name>,
    ghost few: { length counters.items ≤ OPEN_BRACES - 1 },
}

/// What a name means.
#[derive(Clone, Copy, Debug)]
pub(crate) enum Meaning {
    Message(Entry),
    Variable { offset: u16 },
    Array { base: u16, len: u16 },
    /// How many loops are around the counter's own.
    Counter { depth: u8 },
}

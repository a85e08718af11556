ghost use Rattle.std.specs.Prelude.{◌≡◌, []};
ghost use Rattle.std.specs.Option.{option_map};
ghost use Rattle.cell_types.specs.Names.{meaning, message_named, variable_meaning};
ghost use Rattle.cell_types.specs.bodies.Scopes.{meaning_of, message_meant, place_of, scope_in, variable_with, variables_in};
ghost use Rattle.cell_types.specs.Statics.{found_of};
ghost use Rattle.cell_types.specs.bodies.Tables.{named_in};

use super::{Meaning, Scope};
use crate::error::Found;
use crate::table::MessageTable;
use crate::variables::{Slot, Variables};
use std::alloc::Global;
use sys_base::Name;

impl<'a> Scope<'a> {
    /// What can be named in the cell with this index outside its loops.
    pub(crate) fn new(
        alloc: Global,
        cell: u16,
        messages: &'a MessageTable<'a>,
        variables: Variables<'a>,
    ) -> Scope<'a>
        ensures { scope_in result ≡ record {
          cell = cell;
          messages = named_in messages.now;
          variables = variables_in variables.entry;
          counters = [];
        } }
    {
        Scope {
            cell,
            messages,
            variables,
            counters: Vec::new(alloc),
        }
    }

    /// What a name means here, if it means anything.
    pub(super) fn meaning(&self, name: &Name) -> Option<Meaning>
        ensures meaning { option_map meaning_of result ≡ meaning (scope_in self.now) name.now }
        ensures message { message_meant name.now result ≡ message_named (scope_in self.now) name.now }
    {
        if let Some(entry) = self.messages.find(name) {
            return Some(Meaning::Message(entry));
        }
        if let Some(slot) = self.variables.find(name) {
            return Some(Meaning::of_variable(slot));
        }
        let depth = self.depth_of(name)?;
        Some(Meaning::Counter { depth: depth as u8 })
    }

    /// How many loops are around the one with this counter.
    fn depth_of(&self, name: &Name) -> Option<usize>
        ensures { result ≡ place_of (scope_in self.now).counters name.now }
    {
        self.counters
            .iter()
            .position(|counter| counter.bytes() == name.bytes())
    }
}

impl Meaning {
    /// What a variable or an array with this place means.
    fn of_variable(slot: Slot) -> Meaning
        ensures variable { meaning_of result ≡ variable_meaning (variable_with [] slot) }
        ensures no_message { message_meant [] (Some result) ≡ None }
    {
        match slot.len {
            None => Meaning::Variable {
                offset: slot.offset,
            },
            Some(len) => Meaning::Array {
                base: slot.offset,
                len,
            },
        }
    }

    /// The kind of what is meant.
    pub(super) fn found(&self) -> Found
        ensures { result ≡ found_of (meaning_of self.now) }
    {
        match self {
            Meaning::Message(_) => Found::Message,
            Meaning::Variable { .. } => Found::Variable,
            Meaning::Array { .. } => Found::Array,
            Meaning::Counter { .. } => Found::Counter,
        }
    }
}

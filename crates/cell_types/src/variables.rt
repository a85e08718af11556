ghost use Rattle.std.specs.Prelude.{◌≡◌, ◌+◌, ◌≤◌, nat_eq, nat_lt, ◌||◌, option_map, unwrap_or, find, bytes_eq, IfOk, IsTrue, not};
ghost use Rattle.std.specs.Option.{SomeIff};
ghost use Rattle.sys_base.specs.declared.limits.TheConstants.{WORDS};
ghost use Rattle.cell_types.specs.Names.{NamedVariable, placed_from, total_words};
ghost use Rattle.cell_types.specs.bodies.Scopes.{Resolves, variable_with, variables_in, variables_faults};
ghost use Rattle.cell_types.specs.bodies.Tables.{named_in};
ghost use Rattle.cell_types.specs.declared.error.StaticError.TheVariants as E;
ghost use Rattle.cell_types.specs.declared.error.What.TheVariants as W;

use crate::error::{StaticError, What};
use crate::names::NameSet;
use crate::table::MessageTable;
use cell_tree::VarDecl;
use std::alloc::Global;
use sys_base::{Limit, Memory, Name, VARIABLES, WORDS};

/// Where the words of a variable begin among those of its cell, and the length of an array.
#[derive(Clone, Copy, Debug)]
pub(crate) struct Slot {
    pub offset: u16,
    pub len: Option<u16>,
}

/// The variables of a cell: their names in order, and where their words are.
#[derive(Drop)]
pub(crate) struct Variables<'a> {
    pub names: NameSet<'a>,
    pub slots: Vec<Slot>,
    /// How many words they have together, at most `WORDS`.
    pub words: u16,
}

impl<'a> Variables<'a> {
    /// The declared variables one after another, or the first fault of the declarations: a second declaration of a
    /// name (also of a message's), too many names, an empty array, or too many words.
    pub(crate) fn new(
        alloc: Global,
        messages: &MessageTable,
        declared: &'a [VarDecl],
    ) -> Result<Variables<'a>, StaticError>
        ensures variables { Resolves (variables_faults (named_in messages.now) declared.now) variables_in
            (placed_from 0 declared.now) result }
        ensures words { IfOk result (λ variables. variables.words ≡ total_words declared.now) }
    {
        let mut names = NameSet::new(alloc);
        let mut slots = Vec::new(alloc);
        let mut words = 0;
        for variable in declared {
            if messages.find(&variable.name).is_some() || !names.add(&variable.name)? {
                return Err(twice(&variable.name, variable.line)?);
            }
            if slots.len() >= VARIABLES {
                return Err(StaticError::Limit {
                    limit: Limit::Names,
                    line: variable.line,
                });
            }
            let Some(end) = end_of(words, variable.length) else {
                return Err(StaticError::Limit {
                    limit: Limit::Words,
                    line: variable.line,
                });
            };
            slots.push(slot_at(words, variable.length))?;
            words = end;
        }
        Ok(Variables {
            names,
            slots,
            words,
        })
    }

    /// The place of the variable with this name.
    pub(crate) fn find(&self, name: &Name) -> Option<Slot>
        ensures { option_map (variable_with name.now) result
            ≡ find (λ (v : NamedVariable). bytes_eq v.name name.now) (variables_in self.now) }
    {
        let place = self.names.place(name)?;
        self.slots.get(place).copied()
    }
}

/// How many words there are with a variable, or an array of this length, after these; `None` where the array is empty,
/// or there are too many.
fn end_of(words: u16, length: Option<u64>) -> Option<u16>
    requires { words ≤ WORDS }
    ensures end { SomeIff result
        (IsTrue (not (nat_eq (unwrap_or length 1) 0 || nat_lt WORDS (words + unwrap_or length 1))))
        (words + unwrap_or length 1) }
{
    let count = length.unwrap_or(1);
    if count == 0 || count > WORDS - u64::from(words) {
        return None;
    }
    Some(words + count as u16)
}

/// The place of a variable, or of an array of this length, after these words.
fn slot_at(words: u16, length: Option<u64>) -> Slot
    requires { unwrap_or length 1 ≤ WORDS }
    ensures { result ≡ record { offset = words; len = length } }
{
    match length {
        None => Slot {
            offset: words,
            len: None,
        },
        Some(len) => Slot {
            offset: words,
            len: Some(len as u16),
        },
    }
}

/// A second declaration of a name on this line.
pub(crate) fn twice(name: &Name, line: u32) -> Result<StaticError, Memory>
    ensures { IfOk result (λ error. error ≡ E.Twice (W.Named name.now) line) }
{
    Ok(StaticError::Twice {
        what: What::Named(name.copy()?),
        line,
    })
}

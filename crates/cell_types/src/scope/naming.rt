ghost use Rattle.std.specs.Prelude.{◌≡◌, false, ◌∷◌, [], IfOk};
ghost use Rattle.std.specs.Option.{option_map};
ghost use Rattle.cell_types.specs.Names.{meaning};
ghost use Rattle.cell_types.specs.Resolved as r;
ghost use Rattle.cell_types.specs.bodies.Scopes.{Resolves, meaning_of, scope_in, end_faults};
ghost use Rattle.cell_types.specs.Statics.{misnamed, name_faults, is_variable, is_array, is_value};
ghost use Rattle.cell_types.specs.Typed.{expression_of};

use super::{Meaning, Scope};
use crate::error::StaticError;
use crate::expression::TypedExpr;
use sys_base::{Memory, Name};

impl<'a> Scope<'a> {
    /// The offset of the variable that a statement on this line names.
    pub(crate) fn variable(&self, line: u32, name: &Name) -> Result<u16, StaticError>
        ensures { Resolves (name_faults is_variable (scope_in self.now) line name.now) (λ offset. offset)
            (r.word_meant (meaning (scope_in self.now) name.now)) result }
    {
        match self.meaning(name) {
            Some(Meaning::Variable { offset }) => Ok(offset),
            other => Err(misnamed(line, name, other)?),
        }
    }

    /// The offset and the length of the array that a statement on this line names.
    pub(crate) fn array(&self, line: u32, name: &Name) -> Result<(u16, u16), StaticError>
        ensures { Resolves (name_faults is_array (scope_in self.now) line name.now) (λ array. array)
            (r.array_meant (meaning (scope_in self.now) name.now)) result }
    {
        match self.meaning(name) {
            Some(Meaning::Array { base, len }) => Ok((base, len)),
            other => Err(misnamed(line, name, other)?),
        }
    }

    /// The variable or the counter that a statement on this line names as a value.
    pub(crate) fn value(&self, line: u32, name: &Name) -> Result<TypedExpr, StaticError>
        ensures { Resolves (name_faults is_value (scope_in self.now) line name.now) expression_of
            (r.value_meant (meaning (scope_in self.now) name.now)) result }
    {
        match self.meaning(name) {
            Some(Meaning::Variable { offset }) => Ok(TypedExpr::Word(offset)),
            Some(Meaning::Counter { depth }) => Ok(TypedExpr::Counter(depth)),
            other => Err(misnamed(line, name, other)?),
        }
    }

    /// The index of the message that a statement on this line writes, where it `sends`, or else reads.
    pub(crate) fn message(&self, line: u32, sends: bool, name: &Name) -> Result<u16, StaticError>
        ensures { Resolves (end_faults sends (scope_in self.now) line name.now) (λ index. index)
            (r.message_meant (meaning (scope_in self.now) name.now)) result }
    {
        match self.meaning(name) {
            Some(Meaning::Message(entry)) => {
                let end = if sends { entry.from } else { entry.to };
                if end != self.cell {
                    return Err(StaticError::WrongEnd {
                        name: name.copy()?,
                        cell: self.cell,
                        sends,
                        line,
                    });
                }
                Ok(entry.index)
            }
            other => Err(misnamed(line, name, other)?),
        }
    }
}

/// The fault of a name on this line that means nothing, or something else than what is wanted.
fn misnamed(line: u32, name: &Name, meaning: Option<Meaning>) -> Result<StaticError, Memory>
    ensures { IfOk result (λ error. misnamed (λ _. false) name.now line (option_map meaning_of meaning) ≡ error ∷ []) }
{
    let name = name.copy()?;
    Ok(match meaning {
        None => StaticError::Unknown { name, line },
        Some(meaning) => StaticError::WrongKind {
            name,
            found: meaning.found(),
            line,
        },
    })
}

ghost use Rattle.std.specs.Prelude.{◌≡◌, ◌≢◌, ◌<◌, ◌++◌, ◌∷◌, [], length, map, MatchOption, MatchResult, IfOk, IsTrue, ◌||◌, false};
ghost use Rattle.std.specs.Option.{option_map_or};
ghost use Rattle.sys_base.specs.Grid.{cell_count};
ghost use Rattle.sys_base.specs.declared.limits.TheConstants.{MESSAGES};
ghost use Rattle.cell_types.specs.bodies.Declarations.{naming_faults, ends_faults, ends_of, way_faults, message_between};
ghost use Rattle.cell_types.specs.Faults.{faults_behind, is_off_grid, message_faults, IsFirst};
ghost use Rattle.cell_types.specs.Names.{named_message};
ghost use Rattle.cell_types.specs.Resolved.{resolved_message};
ghost use Rattle.cell_types.specs.bodies.Scopes.{Resolves, names_in};
ghost use Rattle.cell_types.specs.bodies.Tables.{named_in};

mod ways;

use crate::error::StaticError;
use crate::names::NameSet;
use crate::program::Message;
use crate::table::{Ends, MessageTable};
use crate::variables::twice;
use cell_tree::MessageDecl;
use std::alloc::Global;
use sys_base::{Grid, Items, Limit, MESSAGES};
use ways::resolve_message;

/// The messages of a source, and the table by which statements name them.
#[derive(Drop)]
pub(crate) struct Messages<'a> {
    pub list: Items<Message>,
    pub table: MessageTable<'a>,
}

/// The declared messages with their ends and routes, or the first fault of the declarations.
pub(crate) fn resolve_messages<'a>(
    alloc: Global,
    grid: &Grid,
    declared: &'a [MessageDecl],
) -> Result<Messages<'a>, StaticError>
    ensures list { Resolves (faults_behind (message_faults grid.now) [] declared.now) (λ messages. messages.list)
        (map (resolved_message grid.now) declared.now) result }
    ensures table { IfOk result (λ messages. named_in messages.table ≡ map (named_message grid.now) declared.now) }
{
    let mut names = NameSet::new(alloc);
    let mut ends = Vec::new(alloc);
    let mut list = Vec::new(alloc);
    for message in declared {
        add_name(&mut names, message)?;
        let between = ends_of(grid, message)?;
        list.push(resolve_message(alloc, grid, between, message)?)?;
        ends.push(between)?;
    }
    Ok(Messages {
        list: Items::from_vec(list),
        table: MessageTable { names, ends },
    })
}

/// Adds the name of one message more.
fn add_name<'a>(names: &mut NameSet<'a>, message: &'a MessageDecl) -> Result<(), StaticError>
    ensures names { MatchResult result
        (λ _. (naming_faults (names_in names.old) message.now ≡ [])
        × (names_in names.new ≡ names_in names.old ++ message.now.name ∷ []))
        (IsFirst (naming_faults (names_in names.old) message.now)) }
    ensures few { IfOk result (λ _. length (names_in names.old) < MESSAGES) }
{
    let line = message.line;
    if names.len() >= MESSAGES {
        return Err(StaticError::Limit {
            limit: Limit::Messages,
            line,
        });
    }
    if !names.add(&message.name)? {
        return Err(twice(&message.name, line)?);
    }
    Ok(())
}

/// The ends of a message, which are cells of the grid and not the same.
fn ends_of(grid: &Grid, message: &MessageDecl) -> Result<Ends, StaticError>
    ensures ends { Resolves (ends_faults grid.now message.now) (λ ends. ends) (ends_of grid.now message.now) result }
    ensures cells { IfOk result
        (λ ends. (ends.from < cell_count grid.now) × (ends.to < cell_count grid.now) × (ends.from ≢ ends.to)) }
{
    let Some(ends) = cells_of(grid, message) else {
        return Err(StaticError::OutsideGrid { line: message.line });
    };
    if ends.from == ends.to {
        return Err(StaticError::SelfMessage {
            name: message.name.copy()?,
            line: message.line,
        });
    }
    Ok(ends)
}

/// The cells of a message; `None` exactly where one of them is outside the grid.
fn cells_of(grid: &Grid, message: &MessageDecl) -> Option<Ends>
    ensures { MatchOption result
        (IsTrue (is_off_grid grid.now message.now.from || is_off_grid grid.now message.now.to))
        (λ ends. (is_off_grid grid.now message.now.from ≡ false) × (is_off_grid grid.now message.now.to ≡ false)
        × (ends ≡ ends_of grid.now message.now)
        × (ends.from < cell_count grid.now) × (ends.to < cell_count grid.now)) }
{
    Some(Ends {
        from: grid.cell(message.from.row, message.from.col)?,
        to: grid.cell(message.to.row, message.to.col)?,
    })
}

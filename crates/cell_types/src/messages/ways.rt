ghost use Rattle.std.specs.Prelude.{◌≡◌, ◌≢◌, ◌<◌, false, IfOk, [], ◌∷◌, nat_lt};
ghost use Rattle.std.specs.Option.{option_map_or};
ghost use Rattle.sys_base.specs.Grid.{cell_count};
ghost use Rattle.sys_base.specs.declared.kinds.Limit.TheVariants as L;
ghost use Rattle.sys_base.specs.declared.limits.TheConstants.{LABEL};
ghost use Rattle.cell_types.specs.bodies.Declarations.{way_faults, message_between};
ghost use Rattle.cell_types.specs.Faults.{route_faults, IsFirst};
ghost use Rattle.cell_types.specs.Resolved.{links_of};
ghost use Rattle.cell_types.specs.Route.{route_between, walked_with};
ghost use Rattle.cell_types.specs.bodies.Scopes.{Resolves};
ghost use Rattle.cell_types.specs.Statics.{when};
ghost use Rattle.cell_types.specs.declared.error.StaticError.TheVariants as E;

use crate::error::{RouteFault, StaticError};
use crate::program::Message;
use crate::table::Ends;
use cell_tree::MessageDecl;
use routes::{RouteError, route_of};
use std::alloc::Global;
use sys_base::{Grid, Items, LABEL, Limit};

/// A message between these ends, with its route and its label.
pub(super) fn resolve_message(
    alloc: Global,
    grid: &Grid,
    ends: Ends,
    message: &MessageDecl,
) -> Result<Message, StaticError>
    requires from { ends.from < cell_count grid.now }
    requires to { ends.to < cell_count grid.now }
    requires apart { ends.from ≢ ends.to }
    ensures { Resolves (way_faults grid.now ends message.now) (λ m. m) (message_between grid.now ends message.now)
        result }
{
    let route = resolve_route(alloc, grid, ends, message)?;
    let label = resolve_label(message)?;
    Ok(Message {
        name: message.name.copy()?,
        from: ends.from,
        to: ends.to,
        route,
        label,
    })
}

/// The links of a message's route.
fn resolve_route(
    alloc: Global,
    grid: &Grid,
    ends: Ends,
    message: &MessageDecl,
) -> Result<Items<u16>, StaticError>
    requires from { ends.from < cell_count grid.now }
    requires to { ends.to < cell_count grid.now }
    requires apart { ends.from ≢ ends.to }
    ensures { Resolves (route_faults message.now.name message.now.line
        (route_between grid.now ends.from ends.to message.now.route))
        (λ route. route) (links_of (route_between grid.now ends.from ends.to message.now.route)) result }
{
    match route_of(alloc, grid, ends.from, ends.to, message.route.as_slice()) {
        Ok(links) => Ok(Items::from_vec(links)),
        Err(error) => Err(route_fault(message, error)),
    }
}

/// A fault of a message's route.
fn route_fault(message: &MessageDecl, error: RouteError) -> StaticError
    ensures { IsFirst (route_faults message.now.name message.now.line (walked_with error)) result }
{
    let error = match error {
        RouteError::LeavesGrid => RouteFault::LeavesGrid,
        RouteError::LinkTwice { link } => RouteFault::LinkTwice { link },
        RouteError::WrongEnd => RouteFault::WrongEnd,
        RouteError::Memory => return StaticError::Memory,
    };
    match message.name.copy() {
        Ok(name) => StaticError::Route {
            name,
            error,
            line: message.line,
        },
        Err(memory) => StaticError::from(memory),
    }
}

/// The label of a message, where it has one.
fn resolve_label(message: &MessageDecl) -> Result<Option<u16>, StaticError>
    ensures { Resolves (when (option_map_or (nat_lt LABEL) message.now.label false) (E.Limit L.Label message.now.line))
        (λ label. label) message.now.label result }
{
    match message.label {
        None => Ok(None),
        Some(label) if label > LABEL => Err(StaticError::Limit {
            limit: Limit::Label,
            line: message.line,
        }),
        Some(label) => Ok(Some(label as u16)),
    }
}

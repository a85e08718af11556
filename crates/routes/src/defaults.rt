ghost use Rattle.std.specs.Prelude.{◌≡◌, ◌+◌, ◌<◌, ◌≤◌, ◌++◌, replicate, length, IfOk, OnOk, IfErr};
ghost use Rattle.sys_base.specs.Grid.{cell_count};
ghost use Rattle.routes.specs.Walks.{straight, default_directions};

use crate::error::RouteError;
use std::alloc::Global;
use sys_base::{Dir, Grid};

/// The directions of the default route: along the row first, then along the column.
pub(crate) fn default_directions(
    alloc: Global,
    grid: &Grid,
    from: u16,
    to: u16,
) -> Result<Vec<Dir>, RouteError>
    requires from { from < cell_count grid.now }
    requires to { to < cell_count grid.now }
    ensures directions { IfOk result (λ v. v.items ≡ default_directions grid.now from to) }
    ensures memory { IfErr result (λ e. e ≡ RouteError.Memory) }
{
    let mut directions = Vec::new(alloc);
    go_straight(
        &mut directions,
        Dir::E,
        Dir::W,
        grid.col(from),
        grid.col(to),
    )?;
    go_straight(
        &mut directions,
        Dir::S,
        Dir::N,
        grid.row(from),
        grid.row(to),
    )?;
    Ok(directions)
}

/// Adds the directions from one row or column to another.
fn go_straight(
    directions: &mut Vec<Dir>,
    onward: Dir,
    back: Dir,
    from: u8,
    to: u8,
) -> Result<(), RouteError>
    requires { length directions.old.items ≤ 65536 }
    ensures directions { OnOk result (directions.new.items ≡ directions.old.items ++ straight onward back from to) }
    ensures memory { IfErr result (λ e. e ≡ RouteError.Memory) }
{
    let more = directions.len() + usize::from(to.saturating_sub(from));
    directions.resize(more, onward)?;
    let more = directions.len() + usize::from(from.saturating_sub(to));
    directions.resize(more, back)?;
    Ok(())
}

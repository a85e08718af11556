ghost use Rattle.std.specs.Prelude.{◌≡◌, ◌*◌, ◌<◌, ◌⊎◌, [], length, IfOk, IfErr, OnOk};
ghost use Rattle.sys_base.specs.Grid.{cell_count};
ghost use Rattle.routes.specs.Faults.{FaultOf};
ghost use Rattle.routes.specs.bodies.Walking.{HasWalked, HasStepped, IsStop};
ghost use Rattle.routes.specs.Walks.{IsTrail};

use crate::error::RouteError;
use std::alloc::Global;
use sys_base::{Dir, Grid};

/// The links that directions walk over, or the first fault of their walk.
pub(crate) fn links_along(
    alloc: Global,
    grid: &Grid,
    from: u16,
    to: u16,
    directions: &[Dir],
) -> Result<Vec<u16>, RouteError>
    requires { from < cell_count grid.now }
    ensures trail { IfOk result (λ links. IsTrail grid.now from directions.now links.items to) }
    ensures fault { IfErr result (λ e. FaultOf grid.now from to directions.now e ⊎ (e ≡ RouteError.Memory)) }
{
    let mut walk = Walk::new(alloc, grid, from)?;
    for dir in directions {
        walk.step(grid, *dir)?;
    }
    if walk.cell != to {
        return Err(RouteError::WrongEnd);
    }
    Ok(walk.links)
}

/// A walk under way: the links that it has used, and the cell that it has come to.
#[derive(Drop)]
pub(crate) struct Walk {
    /// Whether each link of the grid is used, by its id.
    used: Vec<bool>,
    links: Vec<u16>,
    cell: u16,
}

impl Walk {
    /// A walk that has not left its first cell.
    fn new(alloc: Global, grid: &Grid, from: u16) -> Result<Walk, RouteError>
        requires { from < cell_count grid.now }
        ensures walked { IfOk result (λ walk. HasWalked grid.now from [] walk) }
        ensures memory { IfErr result (λ e. e ≡ RouteError.Memory) }
    {
        Ok(Walk {
            used: vec![in alloc; false; 4 * usize::from(grid.cells())]?,
            links: Vec::new(alloc),
            cell: from,
        })
    }

    /// Goes on to the next cell in a direction.
    fn step(&mut self, grid: &Grid, dir: Dir) -> Result<(), RouteError>
        requires inside { self.old.cell < cell_count grid.now }
        requires size { length self.old.used.items ≡ 4 * cell_count grid.now }
        ensures stepped { OnOk result (HasStepped grid.now dir self.old self.new) }
        ensures stop { IfErr result (λ e. IsStop grid.now dir self.old e) }
    {
        let link = grid.link(self.cell, dir).ok_or(RouteError::LeavesGrid)?;
        let next = grid
            .neighbour(self.cell, dir)
            .ok_or(RouteError::LeavesGrid)?;
        if self.used[usize::from(link)] {
            return Err(RouteError::LinkTwice { link });
        }
        self.used[usize::from(link)] = true;
        self.links.push(link)?;
        self.cell = next;
        Ok(())
    }
}

ghost use Rattle.std.specs.Prelude.{false, ◌≡◌, ◌*◌, ◌<◌, ◌≤◌, ◌||◌, [], ◌∷◌, ◌++◌, List, length, flat_map, is_none, IsTrue, IfOk, IfErr, OnOk, MatchOption, MatchResult};
ghost use Rattle.sys_base.specs.Grid.{cell_count, neighbour_of};
ghost use Rattle.cell_tree.specs.declared.source.LinkDecl.{LinkDecl};
ghost use Rattle.cell_types.specs.bodies.Declarations.{HasOwnQueues, HasQueuesOf, count_faults};
ghost use Rattle.cell_types.specs.Faults.{faults_behind, link_faults, declared_link, is_off_grid, IsFirst};
ghost use Rattle.cell_types.specs.Names.{cell_index, extent_of};
ghost use Rattle.cell_types.specs.Resolved.{queues_of, cell_queues, cells_of};
ghost use Rattle.cell_types.specs.Written.{WrittenSource};
ghost use Rattle.cell_types.specs.declared.error.StaticError.TheVariants as E;

use crate::error::{StaticError, What};
use cell_tree::LinkDecl;
use std::alloc::Global;
use sys_base::{Dir, Grid, Items, Limit, QUEUES};

/// The number of queues that a line gives, 1 to 32.
pub(crate) fn queue_count(queues: u64, line: u32) -> Result<u8, StaticError>
    ensures count { MatchResult result (λ count. (count_faults queues line ≡ []) × (count ≡ queues))
        (IsFirst (count_faults queues line)) }
    ensures some { IfOk result (λ count. 1 ≤ count) }
{
    if queues == 0 || queues > QUEUES {
        return Err(StaticError::Limit {
            limit: Limit::Queues,
            line,
        });
    }
    Ok(queues as u8)
}

/// The queues of each link by its id: those of its own line, or otherwise the usual ones; 0 where the grid has no
/// link.
pub(crate) fn all_queues(
    alloc: Global,
    grid: &Grid,
    usual: u8,
    links: &[LinkDecl],
) -> Result<Items<u8>, StaticError>
    ensures queues { IfOk result (λ queues. (source : WrittenSource)
        → grid.now ≡ extent_of source → usual ≡ source.queues → links.now ≡ source.links
        → queues ≡ flat_map (cell_queues source) (cells_of source)) }
    ensures faults { MatchResult result (λ _. faults_behind (link_faults grid.now) [] links.now ≡ [])
        (IsFirst (faults_behind (link_faults grid.now) [] links.now)) }
{
    let own = own_queues(alloc, grid, links)?;
    let mut queues = Vec::new(alloc);
    for cell in 0..grid.cells() {
        add_queues(&mut queues, grid, usual, own.as_slice(), cell)?;
    }
    Ok(Items::from_vec(queues))
}

/// Adds the queues of the four links of a cell, in the order of their ids.
fn add_queues(
    queues: &mut Vec<u8>,
    grid: &Grid,
    usual: u8,
    own: &[u8],
    cell: u16,
) -> Result<(), StaticError>
    requires cell { cell < cell_count grid.now }
    requires own { length own.now ≡ 4 * cell_count grid.now }
    ensures queues { OnOk result ((source : WrittenSource) → HasQueuesOf source grid.now usual own.now
        → queues.new.items ≡ queues.old.items ++ cell_queues source cell) }
    ensures memory { IfErr result (λ e. e ≡ E.Memory) }
{
    for dir in [Dir::N, Dir::E, Dir::S, Dir::W] {
        queues.push(queues_of(grid, usual, own, cell, dir))?;
    }
    Ok(())
}

/// The queues of the link that leaves a cell in a direction.
fn queues_of(grid: &Grid, usual: u8, own: &[u8], cell: u16, dir: Dir) -> u8
    requires cell { cell < cell_count grid.now }
    requires own { length own.now ≡ 4 * cell_count grid.now }
    ensures { (source : WrittenSource) → HasQueuesOf source grid.now usual own.now
        → result ≡ queues_of source cell dir }
{
    match grid.link(cell, dir) {
        None => 0,
        Some(link) => match own[usize::from(link)] {
            0 => usual,
            queues => queues,
        },
    }
}

/// The queues that the lines of links give, by the ids of the links; 0 where a link has no line.
fn own_queues(alloc: Global, grid: &Grid, links: &[LinkDecl]) -> Result<Vec<u8>, StaticError>
    ensures { MatchResult result
        (λ own. (faults_behind (link_faults grid.now) [] links.now ≡ []) × HasOwnQueues grid.now links.now own.items)
        (IsFirst (faults_behind (link_faults grid.now) [] links.now)) }
{
    let mut own = vec![in alloc; 0; 4 * usize::from(grid.cells())]?;
    for link in links {
        declare_link(grid, &mut own, link)?;
    }
    Ok(own)
}

/// Notes the queues of one more link.
fn declare_link(grid: &Grid, own: &mut Vec<u8>, link: &LinkDecl) -> Result<(), StaticError>
    requires { length own.old.items ≡ 4 * cell_count grid.now }
    ensures { (earlier : List LinkDecl) → HasOwnQueues grid.now earlier own.old.items → MatchResult result
        (λ _. (link_faults grid.now earlier link.now ≡ [])
        × HasOwnQueues grid.now (earlier ++ link.now ∷ []) own.new.items)
        (IsFirst (link_faults grid.now earlier link.now)) }
{
    let Some(id) = link_of(grid, link) else {
        return Err(StaticError::OutsideGrid { line: link.line });
    };
    let at = usize::from(id);
    if own[at] != 0 {
        return Err(StaticError::Twice {
            what: What::Link(id),
            line: link.line,
        });
    }
    own[at] = queue_count(link.queues, link.line)?;
    Ok(())
}

/// The id of a declared link; `None` exactly where its cell or its neighbour is outside the grid.
fn link_of(grid: &Grid, link: &LinkDecl) -> Option<u16>
    ensures { MatchOption result
        (IsTrue (is_off_grid grid.now link.now.place
        || is_none (neighbour_of grid.now (cell_index grid.now link.now.place) link.now.dir)))
        (λ id. (is_off_grid grid.now link.now.place ≡ false)
        × (is_none (neighbour_of grid.now (cell_index grid.now link.now.place) link.now.dir) ≡ false)
        × (id ≡ declared_link grid.now link.now) × (id < 4 * cell_count grid.now)) }
{
    let cell = grid.cell(link.place.row, link.place.col)?;
    grid.link(cell, link.dir)
}

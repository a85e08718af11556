ghost use Rattle.std.specs.Prelude.{◌≡◌, ◌≢◌, ℕ, ◌*◌, ◌<◌, ◌≤◌, ◌⊎◌, List, [], length, All, IfOk, IfErr, MatchResult, ⊤};
ghost use Rattle.sys_base.specs.Grid.{cell_count};
ghost use Rattle.routes.specs.declared.error.RouteError.{RouteError};
ghost use Rattle.routes.specs.Faults.{IsFault};
ghost use Rattle.routes.specs.Walks.{IsRoute, IsPath};

use crate::defaults::default_directions;
use crate::error::RouteError;
use crate::walk::links_along;
use std::alloc::Global;
use sys_base::{Dir, Grid};

/// The route between two cells of the grid by the given directions, as the ids of its links in order; the default
/// route, along the row first and then along the column, where no direction is given.
///
/// A link's id is four times its cell's index and the number of its direction: N 0, E 1, S 2, W 3. An error is the
/// first fault of the walk, or `Memory`, which may come for any route. The time is linear in the directions and the
/// grid.
pub fn route_of(
    alloc: Global,
    grid: &Grid,
    from: u16,
    to: u16,
    given: &[Dir],
) -> Result<Vec<u16>, RouteError>
    requires from { from < cell_count grid.now }
    requires to { to < cell_count grid.now }
    requires apart { from ≢ to }

    // What is answered is right.
    ensures route { IfOk result (λ links. IsRoute grid.now from to given.now links.items) }
    ensures fault { IfErr result (λ e. IsFault grid.now from to given.now e ⊎ (e ≡ RouteError.Memory)) }

    // What there is, is answered, unless memory runs out.
    ensures only { (links : List ℕ) → IsRoute grid.now from to given.now links
        → MatchResult result (λ v. v.items ≡ links) (λ e. e ≡ RouteError.Memory) }
    ensures only_fault { (f : RouteError) → IsFault grid.now from to given.now f
        → MatchResult result (λ _. ⊥) (λ e. (e ≡ f) ⊎ (e ≡ RouteError.Memory)) }
    ensures default { given.now ≡ [] → MatchResult result (λ _. ⊤) (λ e. e ≡ RouteError.Memory) }

    // What a route is, whatever its directions are.
    ensures path { IfOk result (λ links. IsPath grid.now from links.items to) }
    ensures some { IfOk result (λ links. 0 < length links.items) }
    ensures most { IfOk result (λ links. length links.items ≤ 4 * cell_count grid.now) }
    ensures each { IfOk result (λ links. All (λ link. link < 4 * cell_count grid.now) links.items) }
{
    find_route(alloc, grid, from, to, given)
}

/// The route by the given directions, or the first fault; `route_of` adds that there is no other.
fn find_route(
    alloc: Global,
    grid: &Grid,
    from: u16,
    to: u16,
    given: &[Dir],
) -> Result<Vec<u16>, RouteError>
    requires from { from < cell_count grid.now }
    requires to { to < cell_count grid.now }
    ensures route { IfOk result (λ links. IsRoute grid.now from to given.now links.items) }
    ensures fault { IfErr result (λ e. IsFault grid.now from to given.now e ⊎ (e ≡ RouteError.Memory)) }
{
    if given.is_empty() {
        let directions = default_directions(alloc, grid, from, to)?;
        return links_along(alloc, grid, from, to, directions.as_slice());
    }
    links_along(alloc, grid, from, to, given)
}

ghost use Rattle.std.specs.Prelude.{◌≡◌, ◌≢◌, ℕ, ℤ, ◌≤◌, ◌⊎◌, ◌↔◌, List, [], length, flat_map, slice_get, All, Ok, Some};
ghost use Rattle.sys_base.specs.declared.kinds.Dir.{Dir};
ghost use Rattle.sys_base.specs.Grid.{Extent};
ghost use Rattle.sys_base.specs.Held.{Streams};
ghost use Rattle.routes.specs.declared.error.RouteError.{RouteError};
ghost use Rattle.routes.specs.Faults.{IsFault};
ghost use Rattle.routes.specs.Walks.{IsRoute};
ghost use Rattle.cell_tree.specs.Nodes.{source_nodes};
ghost use Rattle.cell_tree.specs.Printable.{IsPrintable};
ghost use Rattle.cell_tree.specs.declared.source.Source.{Source};
ghost use Rattle.cell_types.specs.Alike.{Alike};
ghost use Rattle.cell_types.specs.Code.{Block, CellCode, ProgramCode};
ghost use Rattle.cell_types.specs.Communications.{block_communications, communications};
ghost use Rattle.cell_types.specs.Cost.{block_cost, cells_cost};
ghost use Rattle.cell_types.specs.Faults.{faults};
ghost use Rattle.cell_types.specs.Resolved.{program_of};
ghost use Rattle.cell_types.specs.Route.{route_between, walked_with};
ghost use Rattle.cell_types.specs.Size.{block_size};
ghost use Rattle.cell_types.specs.Solo.{solo};
ghost use Rattle.cell_types.specs.Sound.{IsSound};
ghost use Rattle.cell_types.specs.declared.error.StaticError.{StaticError};

use cell_tree::{printable_is_shallow, printable_routes_are_short};
use routes::{path_bounds, route_lengths};

/// A law: the route that a program has for a message is exactly the route between its cells by the given directions,
/// as `routes` defines it; and where that has a first fault, a source has this fault there.
pub fn routes_agree()
    ensures routes { (g : Extent) (from to : ℕ) (given : List Dir) (links : List ℕ)
        → IsRoute g from to given links ↔ (route_between g from to given ≡ Ok links) }
    ensures faults { (g : Extent) (from to : ℕ) (given : List Dir) (e : RouteError)
        → IsFault g from to given e → route_between g from to given ≡ walked_with e }
{}

/// A law: a source has no static fault, or it has a first one, which is no want of memory; and where a printable
/// source has none, its program keeps all that the type of programs keeps.
pub fn some_program()
    ensures fault { (source : Source) → (faults source ≡ [])
        ⊎ ((e : StaticError) × (slice_get (faults source) 0 ≡ Some e) × (e ≢ StaticError.Memory)) }
    ensures sound { (source : Source) → IsPrintable source → faults source ≡ [] → IsSound (program_of source) }
{
    path_bounds();
    route_lengths();
    printable_is_shallow();
    printable_routes_are_short();
}

/// A law: statements communicate at most as often as they take steps, and so do all cells of a program together.
pub fn few_communications()
    ensures block { (b : Block) → length (block_communications b) ≤ block_cost b }
    ensures cells { (program : ProgramCode)
        → length (flat_map (λ (c : CellCode). block_communications c.body) program.cells) ≤ cells_cost program }
{}

/// A law: the statements of each cell of a program are compiled to no more instructions than its source has nodes.
pub fn few_instructions()
    ensures { (source : Source)
        → All (λ (c : CellCode). block_size c.body ≤ source_nodes source) (program_of source).cells }
{}

/// A law: where the arms of a program communicate alike, a cell of it alone makes the cell's communications, in order,
/// whatever its input and the streams are.
pub fn alone_communicates()
    ensures { (program : ProgramCode) → Alike program → (cell : ℕ) (input : List ℤ) (streams : Streams)
        → (solo program cell input streams).made ≡ communications program cell }
{}

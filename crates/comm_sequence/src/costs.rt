ghost use Rattle.cell_types.specs.Cost.{IsLimited, cells_cost};
ghost use Rattle.cell_types.specs.Typed.{plain};

use cell_types::Program;

/// The cost of all cells of a program together, in steps, 0 to 16,777,216 (`docs/model.md`, "Cost"); `None` exactly
/// where it is more.
///
/// It takes no memory, and passes over no statement: each cell keeps its own cost.
pub fn cost(program: &Program) -> Option<u32>
    ensures { IsLimited (cells_cost (plain program.now)) result }
{
    program.cost()
}

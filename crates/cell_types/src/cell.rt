ghost use Rattle.cell_types.specs.Cost.{IsLimited, block_cost, limited-prop};
ghost use Rattle.cell_types.specs.TypedBlocks.{block_of};

use crate::statement::TypedStmt;

/// The program of one cell (`docs/language.md`, "Names and what they mean"). A cell that the source does not declare
/// has no words and no statements.
///
/// The ranges are those of a cell of a `Program` (`specs/Sound.antt`, `IsSoundCell`).
#[derive(Debug, Drop)]
pub struct Cell {
    /// The number of words of its variables and arrays, 0 to 1,024.
    pub words: u16,
    /// The most loops inside one another, 0 to 16.
    pub counters: u8,
    /// The deepest stack that a statement of it needs, in values, 0 to 256 (`specs/Depth.antt`, `block_stack`).
    pub stack: u16,
    /// Its statements, in order.
    pub body: Vec<TypedStmt>,
    /// What its statements cost, which `cost` tells.
    pub(crate) cost: Option<u32>,
    ghost limited: { IsLimited (block_cost (block_of body.items)) cost } by { limited-prop _ _ },
}

impl Cell {
    /// The cost of its statements, in steps, 0 to 16,777,216 (`docs/model.md`, "Cost"); `None` exactly where it is
    /// more.
    pub fn cost(&self) -> Option<u32>
        ensures { IsLimited (block_cost (block_of self.now.body.items)) result }
    {
        self.cost
    }
}

ghost use Rattle.std.specs.Prelude.{◌≡◌, IfOk};

use crate::items::Items;
use crate::memory::Memory;
use crate::word::Word;
use std::alloc::Global;

/// The input numbers of each cell, at the cell's index.
#[derive(Debug, Drop)]
pub struct Inputs {
    pub cells: Items<Items<i64>>,
}

impl Inputs {
    /// Equal inputs.
    pub fn copy(&self, alloc: Global) -> Result<Inputs, Memory>
        ensures { IfOk result (λ inputs. inputs ≡ self.now) }
    {
        let mut cells = Items::new(alloc);
        for cell in self.cells.iter() {
            cells.push(Items::from_slice(alloc, cell.as_slice())?)?;
        }
        Ok(Inputs { cells })
    }
}

/// The words that each cell has emitted, at the cell's index.
#[derive(Debug, Drop)]
pub struct Outputs {
    pub cells: Items<Items<Word>>,
}

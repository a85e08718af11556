ghost use Rattle.std.specs.Prelude.{◌≡◌};
ghost use Rattle.cell_types.specs.Cost.{IsLimited, cells_cost};
ghost use Rattle.cell_types.specs.Sound.{IsSound};
ghost use Rattle.cell_types.specs.Typed.{plain};

use crate::cell::Cell;
use crate::costs::sum;
use std::marker::Model;
use sys_base::{Grid, Items, Name};

/// A message from one cell to another one (`docs/model.md`, "Routes" and "Labels").
///
/// The ranges are those of a message of a `Program` (`specs/Sound.antt`, `IsSoundMessage`).
#[derive(Debug, Drop)]
pub struct Message {
    /// Its name, which no other message of the program has.
    pub name: Name,
    /// The index of the sender, below the number of cells.
    pub from: u16,
    /// The index of the receiver, below the number of cells, and not that of the sender.
    pub to: u16,
    /// The ids of the links from the sender to the receiver, in order. There are 1 to 256, none stands twice, and each
    /// is below four times the number of cells.
    pub route: Items<u16>,
    /// The label that the source gives it, 0 to 65,535; `None` exactly where the source gives it none.
    pub label: Option<u16>,
}

/// A source whose names are resolved and which has no static fault (`docs/language.md`, "Names and what they mean";
/// `specs/Sound.antt`). It comes from `resolve` alone.
#[derive(Debug, Drop)]
pub struct Program {
    grid: Grid,
    queues: Items<u8>,
    messages: Items<Message>,
    cells: Items<Cell>,
    buffer: u8,
}

impl Model for Program {
    ghost use Rattle.cell_types.specs.Typed.{Contents, plain};
    ghost use Rattle.cell_types.specs.Sound.{IsSound};
    ghost use Rattle.cell_types.specs.contracts.cell.Cell as cell;
    ghost use Rattle.std.specs.Coded.{codes};

    ghost Value = { Contents };

    ghost coded = { Prim.hlevel (codes, cell.the_row.coded) };

    ghost view = { λ p.
        record { grid = p.grid; queues = p.queues; messages = p.messages; cells = p.cells; buffer = p.buffer } };

    ghost invariant = { λ p. IsSound (plain
        (record { grid = p.grid; queues = p.queues; messages = p.messages; cells = p.cells; buffer = p.buffer })) };
}

impl Program {
    /// The program with these parts.
    pub(crate) fn new(
        grid: Grid,
        queues: Items<u8>,
        messages: Items<Message>,
        cells: Items<Cell>,
        buffer: u8,
    ) -> Program
        requires sound { IsSound (plain
            (record { grid = grid; queues = queues; messages = messages; cells = cells; buffer = buffer })) }
        ensures { result
            ≡ record { grid = grid; queues = queues; messages = messages; cells = cells; buffer = buffer } }
    {
        Program {
            grid,
            queues,
            messages,
            cells,
            buffer,
        }
    }

    /// The grid of cells, which has 1 to 16 rows and columns (`docs/model.md`, "The grid").
    pub fn grid(&self) -> Grid
        ensures grid { result ≡ self.now.grid }
        ensures sound { IsSound (plain self.now) }
    {
        self.grid
    }

    /// The number of queues of each link at the link's id, 1 to 32; 0 where the grid has no such link. There are four
    /// ids for each cell.
    pub fn queues(&self) -> &[u8]
        ensures queues { result.now ≡ self.now.queues }
        ensures sound { IsSound (plain self.now) }
    {
        self.queues.as_slice()
    }

    /// The messages in the order of declaration, at most 512. The index of a message is its place here, from 0.
    pub fn messages(&self) -> &[Message]
        ensures messages { result.now ≡ self.now.messages }
        ensures sound { IsSound (plain self.now) }
    {
        self.messages.as_slice()
    }

    /// The cells at their indices, one for each cell of the grid, so 1 to 256.
    pub fn cells(&self) -> &[Cell]
        ensures cells { result.now ≡ self.now.cells }
        ensures sound { IsSound (plain self.now) }
    {
        self.cells.as_slice()
    }

    /// The buffer, 0 to 64; 0 where the source gives none.
    pub fn buffer(&self) -> u8
        ensures buffer { result ≡ self.now.buffer }
        ensures sound { IsSound (plain self.now) }
    {
        self.buffer
    }

    /// The cost of all cells together, in steps, 0 to 16,777,216 (`docs/model.md`, "Cost"); `None` exactly where it is
    /// more.
    pub fn cost(&self) -> Option<u32>
        ensures { IsLimited (cells_cost (plain self.now)) result }
    {
        let mut cost = 0;
        for cell in self.cells() {
            cost = sum(cost, cell.cost()?)?;
        }
        Some(cost)
    }
}

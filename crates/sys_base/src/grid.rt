ghost use Rattle.std.specs.Prelude.{◌≡◌, ℕ, ◌+◌, ◌*◌, ◌<◌, ◌≤◌, ◌↔◌, IsSome, IfSome};
ghost use Rattle.std.specs.Option.{SomeIff, option_map};
ghost use Rattle.sys_base.specs.declared.limits.TheConstants.{CELLS};
ghost use Rattle.sys_base.specs.Grid.{Extent, IsExtent, cell_count, cell_at, row_of, col_of, IsInside, neighbour_of, link_id};

use crate::kinds::Dir;
use crate::limits::SIDE;
use std::marker::Model;

/// A rectangular grid of cells, seen as its rows and columns, 1 to 16 each (`docs/model.md`, "The grid").
#[derive(Clone, Copy, Debug, PartialEq, Eq)]
pub struct Grid {
    rows: u8,
    cols: u8,
}

impl Model for Grid {
    ghost Value = { Extent };

    ghost view = { λ g. record { rows = g.rows; cols = g.cols } };

    ghost invariant = { λ g. IsExtent (record { rows = g.rows; cols = g.cols }) };

    ghost inverse = { λ e. record { rows = e.rows; cols = e.cols } };
}

impl Grid {
    /// The grid with so many rows and columns; `None` exactly where one of them is outside 1 to 16.
    pub fn new(rows: u64, cols: u64) -> Option<Grid>
        ensures { SomeIff result (IsExtent (record { rows = rows; cols = cols }))
            (record { rows = rows; cols = cols }) }
    {
        if rows == 0 || SIDE < rows || cols == 0 || SIDE < cols {
            return None;
        }
        Some(Grid {
            rows: rows as u8,
            cols: cols as u8,
        })
    }

    /// The rows, 1 to 16.
    pub fn rows(&self) -> u8
        ensures rows { result ≡ self.now.rows }
        ensures extent { IsExtent self.now }
    {
        self.rows
    }

    /// The columns, 1 to 16.
    pub fn cols(&self) -> u8
        ensures cols { result ≡ self.now.cols }
        ensures extent { IsExtent self.now }
    {
        self.cols
    }

    /// The number of cells, rows times columns.
    pub fn cells(&self) -> u16
        ensures cells { result ≡ cell_count self.now }
        ensures most { result ≤ CELLS }
    {
        u16::from(self.rows) * u16::from(self.cols)
    }

    /// The index of the cell in this row and column, both from 0; `None` exactly outside the grid.
    pub fn cell(&self, row: u64, col: u64) -> Option<u16>
        ensures cell { SomeIff result (IsInside self.now row col) (cell_at self.now row col) }
        ensures within { IfSome result (λ cell. cell < cell_count self.now) }
    {
        if row >= u64::from(self.rows) || col >= u64::from(self.cols) {
            return None;
        }
        Some(row as u16 * u16::from(self.cols) + col as u16)
    }

    /// The row of a cell, from 0.
    pub fn row(&self, cell: u16) -> u8
        requires { cell < cell_count self.now }
        ensures row { result ≡ row_of self.now cell }
        ensures inside { result < self.now.rows }
    {
        (cell / u16::from(self.cols)) as u8
    }

    /// The column of a cell, from 0.
    pub fn col(&self, cell: u16) -> u8
        requires { cell < cell_count self.now }
        ensures col { result ≡ col_of self.now cell }
        ensures inside { result < self.now.cols }
    {
        (cell % u16::from(self.cols)) as u8
    }

    /// The cell next to this one in a direction; `None` exactly where there is none.
    pub fn neighbour(&self, cell: u16, dir: Dir) -> Option<u16>
        requires { cell < cell_count self.now }
        ensures neighbour { result ≡ neighbour_of self.now cell dir }
        ensures within { IfSome result (λ next. next < cell_count self.now) }
    {
        let cols = u16::from(self.cols);
        let (row, col) = (cell / cols, cell % cols);
        match dir {
            Dir::N if row > 0 => Some(cell - cols),
            Dir::E if col + 1 < cols => Some(cell + 1),
            Dir::S if row + 1 < u16::from(self.rows) => Some(cell + cols),
            Dir::W if col > 0 => Some(cell - 1),
            _ => None,
        }
    }

    /// The id of the link that leaves a cell in a direction; `None` exactly where there is no neighbour.
    pub fn link(&self, cell: u16, dir: Dir) -> Option<u16>
        requires { cell < cell_count self.now }
        ensures { result ≡ option_map (λ _. link_id cell dir) (neighbour_of self.now cell dir) }
    {
        prove!(cell < self.cells());
        self.neighbour(cell, dir)?;
        Some(4 * cell + dir as u16)
    }
}

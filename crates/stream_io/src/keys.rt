ghost use Rattle.std.specs.Prelude.{◌≡◌, ◌<◌, ◌↔◌, ℕ, Some, IfOk, IfSome, IsTrue, string_bytes};
ghost use Rattle.stream_io.specs.Reading.{IsKey, key_of};
ghost use Rattle.sys_base.specs.Grid.{cell_count};

use std::alloc::Global;
use sys_base::{Grid, Memory};

/// The key of a cell: its row and its column, as `0.1`.
pub(crate) fn key_of(alloc: Global, grid: &Grid, cell: u16) -> Result<String, Memory>
    requires { cell < cell_count grid.now }
    ensures { IfOk result (λ key. string_bytes key ≡ key_of grid.now cell) }
{
    Ok(grid.cell_name(cell).to_string(alloc)?)
}

/// Whether a key names a cell of the grid.
pub(crate) fn is_key(alloc: Global, grid: &Grid, key: &str) -> Result<bool, Memory>
    ensures { IfOk result (λ is. IsTrue is ↔ IsKey grid.now key.now) }
{
    match cell_of(grid, key) {
        Some(cell) => Ok(key_of(alloc, grid, cell)?.as_str() == key),
        None => Ok(false),
    }
}

/// The one cell that a key may name: that in the row and the column that stand around its first dot.
fn cell_of(grid: &Grid, key: &str) -> Option<u16>
    ensures inside { IfSome result (λ cell. cell < cell_count grid.now) }
    ensures only { (cell : ℕ) → cell < cell_count grid.now → key.now ≡ key_of grid.now cell → result ≡ Some cell }
{
    let (rows, cols) = (grid.rows(), grid.cols());
    let (row, col) = key.split_once('.')?;
    let row: u8 = row.parse().ok()?;
    let col: u8 = col.parse().ok()?;
    if row >= rows || col >= cols {
        return None;
    }
    Some(u16::from(row) * u16::from(cols) + u16::from(col))
}

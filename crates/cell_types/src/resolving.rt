ghost use Rattle.std.specs.Prelude.{◌≡◌, [], IfOk, IfErr, MatchResult};
ghost use Rattle.cell_tree.specs.Printable.{IsPrintable};
ghost use Rattle.cell_types.specs.Faults.{array_faults, faults, IsFirst};
ghost use Rattle.cell_types.specs.Names.{extent_of};
ghost use Rattle.cell_types.specs.Near.{NamesNear};
ghost use Rattle.cell_types.specs.Resolved.{program_of};
ghost use Rattle.cell_types.specs.bodies.Declarations.{buffer_faults};
ghost use Rattle.cell_types.specs.bodies.Scopes.{Resolves};
ghost use Rattle.cell_types.specs.Typed.{plain};
ghost use Rattle.cell_types.specs.Written.{written};

use crate::declared_cells::resolve_cells;
use crate::error::StaticError;
use crate::links::{all_queues, queue_count};
use crate::messages::{Messages, resolve_messages};
use crate::program::Program;
use cell_tree::{Source, printable_is_shallow, printable_routes_are_short};
use routes::{path_bounds, route_lengths};
use std::alloc::Global;
use sys_base::{BUFFER, Grid, Limit, SIDE};

/// The program of a printable source: its names resolved, its routes and queues filled in (`docs/language.md`,
/// "Canonical text" and "Names and what they mean").
///
/// An error is the first fault of the source in file order (`docs/refusals.md`, "Statics, in file order"), or
/// `Memory`, which may come for any source. The cells and links that a fault names stand in rows and columns that some
/// grid has (`specs/Near.antt`).
pub fn resolve(alloc: Global, source: Source) -> Result<Program, StaticError>
    requires printable { IsPrintable source }
    ensures program { IfOk result (λ p. (faults source ≡ []) × (plain p ≡ program_of source)) }
    ensures fault { IfErr result (IsFirst (faults source)) }
    ensures near { IfErr result (NamesNear source.cols) }
{
    path_bounds();
    route_lengths();
    resolve_source(alloc, source)
}

fn resolve_source(alloc: Global, source: Source) -> Result<Program, StaticError>
    requires { IsPrintable source }
    ensures program { IfOk result (λ p. (faults source ≡ []) × (plain p ≡ program_of source)) }
    ensures fault { IfErr result (IsFirst (faults source)) }
{
    printable_is_shallow();
    printable_routes_are_short();
    path_bounds();
    route_lengths();
    let grid = resolve_grid(&source)?;
    let usual = queue_count(source.queues, source.queues_line)?;
    let buffer = resolve_buffer(source.buffer, source.buffer_line)?;
    let queues = all_queues(alloc, &grid, usual, source.links.as_slice())?;
    let Source {
        messages,
        cells,
        ..
    } = source;
    let Messages { list, table } = resolve_messages(alloc, &grid, messages.as_slice())?;
    let cells = resolve_cells(alloc, &grid, &table, cells)?;
    Ok(Program::new(grid, queues, list, cells, buffer))
}

/// The buffer that a source gives, 0 to 64.
fn resolve_buffer(buffer: u64, line: u32) -> Result<u8, StaticError>
    ensures { MatchResult result (λ kept. (buffer_faults buffer line ≡ []) × (kept ≡ buffer))
        (IsFirst (buffer_faults buffer line)) }
{
    if buffer > BUFFER {
        return Err(StaticError::Limit {
            limit: Limit::Buffer,
            line,
        });
    }
    Ok(buffer as u8)
}

/// The grid of a source, by its `array` line.
pub(crate) fn resolve_grid(source: &Source) -> Result<Grid, StaticError>
    ensures { Resolves (array_faults (written source.now)) (λ grid. grid) (extent_of (written source.now)) result }
{
    if let Some(grid) = Grid::new(source.rows, source.cols) {
        return Ok(grid);
    }
    let limit = if source.rows == 0 || source.rows > SIDE {
        Limit::Rows
    } else {
        Limit::Columns
    };
    Err(StaticError::Limit {
        limit,
        line: source.array_line,
    })
}

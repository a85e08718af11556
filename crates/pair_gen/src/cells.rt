ghost use Rattle.std.specs.Prelude.{◌≡◌, ◌+◌, ◌*◌, ◌^◌, ◌<◌, ◌≤◌, length, map, IfOk};
ghost use Rattle.std.specs.List.{All};
ghost use Rattle.sys_base.specs.Groups.{below};
ghost use Rattle.pair_gen.specs.Generated.{cell_acts, cell_decl, first_line};

use crate::body::body;
use crate::names::Names;
use crate::square::{CELLS, place_of};
use cell_tree::{CellDecl, VarDecl};
use std::alloc::Global;
use sys_base::{Items, Memory};

/// The declarations of the cells, where these are the messages of the pairs.
#[tactic(auto, using(crate::proofs::Below::map_below_more, crate::proofs::Lines::next_line))]
pub(crate) fn cells(alloc: Global, names: &Names, drawn: &[u8]) -> Result<Items<CellDecl>, Memory>
    requires known { All (λ message. message < 24) drawn.now }
    requires few { length drawn.now ≤ 20000 }
    ensures { IfOk result (λ cells. cells ≡ map (cell_decl drawn.now) (below 16)) }
{
    let mut cells = Items::new(alloc);
    let mut line = 27;
    for index in 0..CELLS {
        let cell = declaration(alloc, names, drawn, index, line)?;
        line += 3 + cell.body.len() as u32;
        cells.push(cell)?;
    }
    Ok(cells)
}

/// The declaration of a cell, which begins on this line.
fn declaration(
    alloc: Global,
    names: &Names,
    drawn: &[u8],
    cell: u8,
    line: u32,
) -> Result<CellDecl, Memory>
    requires known { All (λ message. message < 24) drawn.now }
    requires room { line + 2 * length drawn.now + 4 < 2 ^ 32 }
    requires line { line ≡ first_line drawn.now cell }
    ensures is { IfOk result (λ declared. declared ≡ cell_decl drawn.now cell) }
    ensures count { IfOk result (λ declared. length declared.body ≡ length (cell_acts drawn.now cell)) }
    ensures few { IfOk result (λ declared. length declared.body ≤ 2 + 2 * length drawn.now) }
{
    let mut vars = Items::new(alloc);
    vars.push(VarDecl {
        name: names.variable()?,
        length: None,
        line: line + 1,
    })?;
    Ok(CellDecl {
        place: place_of(cell),
        vars,
        body: body(alloc, names, drawn, cell, line + 2)?,
        line,
    })
}

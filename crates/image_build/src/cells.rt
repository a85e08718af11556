ghost use Rattle.std.specs.Prelude.{◌≡◌, ◌<◌, ◌^◌, ℕ, length, map, IfOk};
ghost use Rattle.sys_base.specs.Grid.{cell_count};
ghost use Rattle.cell_types.specs.Groups.{below};
ghost use Rattle.cell_types.specs.Solo.{code_of};
ghost use Rattle.cell_types.specs.Typed.{plain};
ghost use Rattle.comm_sequence.specs.Sequences.{sequences_of};
ghost use Rattle.cell_codegen.specs.Emission.{body_code};
ghost use Rattle.program_image.specs.ImageOf.{cell_of};

use cell_code::CellImage;
use cell_codegen::emit_cell;
use cell_types::Program;
use comm_sequence::Seqs;
use std::alloc::Global;
use sys_base::{Items, Memory};

/// The images of a program's cells.
pub(crate) fn cell_images(
    alloc: Global,
    program: &Program,
    seqs: &Seqs,
) -> Result<Items<CellImage>, Memory>
    requires seqs { seqs.now ≡ sequences_of (plain program.now) }
    requires room { (cell : ℕ) → length (body_code (code_of (plain program.now) cell).body) < 2 ^ 32 }
    ensures { IfOk result (λ cells. cells ≡ map (cell_of (plain program.now)) (below (length program.now.cells))) }
{
    let mut cells = Items::new(alloc);
    for cell in 0..program.cells().len() as u16 {
        cells.push(cell_image(alloc, program, seqs, cell)?)?;
    }
    Ok(cells)
}

/// The image of a cell.
fn cell_image(alloc: Global, program: &Program, seqs: &Seqs, cell: u16) -> Result<CellImage, Memory>
    requires seqs { seqs.now ≡ sequences_of (plain program.now) }
    requires cell { cell < length program.now.cells }
    requires room { (cell : ℕ) → length (body_code (code_of (plain program.now) cell).body) < 2 ^ 32 }
    ensures { IfOk result (λ image. image ≡ cell_of (plain program.now) cell) }
{
    let typed = &program.cells()[usize::from(cell)];
    let code = Items::from_vec(emit_cell(alloc, program, cell)?);
    Ok(CellImage {
        takes: seqs.takes(cell),
        emits: seqs.emits(cell),
        words: typed.words,
        counters: typed.counters,
        stack: typed.stack,
        code,
    })
}

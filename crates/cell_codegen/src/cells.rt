ghost use Rattle.std.specs.Prelude.{◌≡◌, ◌<◌, ◌^◌, ℤ, List, length, IfOk};
ghost use Rattle.sys_base.specs.Grid.{cell_count};
ghost use Rattle.sys_base.specs.Held.{Streams};
ghost use Rattle.cell_code.specs.ShapedCells.{IsShapedCell};
ghost use Rattle.cell_types.specs.Alike.{AlikeBlock};
ghost use Rattle.cell_types.specs.Communications.{communications};
ghost use Rattle.cell_types.specs.Solo.{code_of, solo};
ghost use Rattle.cell_types.specs.Typed.{plain};
ghost use Rattle.cell_codegen.specs.Emission.{body_code};
ghost use Rattle.cell_codegen.specs.Following.{Follows};
ghost use Rattle.cell_codegen.specs.Shapes.{IsSoundCode, cell_image};

use crate::emission::emit_body;
use cell_code::Instr;
use cell_types::Program;
use std::alloc::Global;
use sys_base::Memory;

/// The code of a cell of a program, ending in `halt` (`specs/Emission.antt`). Its time is linear in the code.
///
/// The code follows the cell's statements, for every input and all streams (`specs/Following.antt`). It is sound in
/// itself, and where the arms of each `if` communicate alike, it is that of a shaped cell with the cell's words,
/// counters, stack, takes and emits (`specs/Shapes.antt`).
pub fn emit_cell(alloc: Global, program: &Program, cell: u16) -> Result<Vec<Instr>, Memory>
    requires cell { cell < cell_count program.now.grid }
    requires room { length (body_code (code_of (plain program.now) cell).body) < 2 ^ 32 }
    ensures code { IfOk result (λ code. code.items ≡ body_code (code_of (plain program.now) cell).body) }
    ensures follows { IfOk result (λ code. (input : List ℤ) (streams : Streams) → Follows code.items
        (plain program.now) cell input streams) }
    ensures communicates { AlikeBlock (code_of (plain program.now) cell).body → (input : List ℤ) (streams : Streams)
        → (solo (plain program.now) cell input streams).made ≡ communications (plain program.now) cell }
    ensures sound { IfOk result (λ code. IsSoundCode (code_of (plain program.now) cell) code.items) }
    ensures shaped { IfOk result (λ code. AlikeBlock (code_of (plain program.now) cell).body
        → IsShapedCell (cell_image (plain program.now) cell code.items)) }
{
    let cells = program.cells();
    emit_body(alloc, cells[usize::from(cell)].body.as_slice())
}

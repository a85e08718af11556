ghost use Rattle.std.specs.Prelude.{◌≡◌, ◌<◌, ℕ, ℤ, List, Some, length, slice_get};
ghost use Rattle.sys_base.specs.Grid.{cell_count};
ghost use Rattle.sys_base.specs.Held.{Streams};
ghost use Rattle.cell_code.specs.ShapedCells.{IsShapedCell};
ghost use Rattle.cell_code.specs.declared.instruction.Instr.{Instr};
ghost use Rattle.cell_types.specs.Alike.{AlikeBlock};
ghost use Rattle.cell_types.specs.Code.{CellCode, ProgramCode};
ghost use Rattle.cell_types.specs.Size.{cell_size};
ghost use Rattle.cell_types.specs.Solo.{code_of};
ghost use Rattle.cell_types.specs.Sound.{IsSound};
ghost use Rattle.cell_codegen.specs.Emission.{body_code};
ghost use Rattle.cell_codegen.specs.Following.{Follows};
ghost use Rattle.cell_codegen.specs.Shapes.{IsAtItsEnd, cell_image};

/// A law: the code of a cell has as many instructions as the cell's size says.
pub fn code_is_sized()
    ensures { (cell : CellCode) → length (body_code cell.body) ≡ cell_size cell }
{}

/// A law: the code of each cell of a sound program follows the cell's statements, for every input and all streams.
pub fn code_ends_alone()
    ensures { (program : ProgramCode) (cell : ℕ) → IsSound program → cell < cell_count program.grid
        → (input : List ℤ) (streams : Streams)
        → Follows (body_code (code_of program cell).body) program cell input streams }
{}

/// A law: the code of each cell of a sound program, where its arms communicate alike, is that of a shaped cell; and it
/// writes only messages that the cell sends, and reads only messages that it receives.
pub fn code_is_shaped()
    ensures shaped { (program : ProgramCode) (cell : ℕ) → IsSound program → cell < cell_count program.grid
        → AlikeBlock (code_of program cell).body
        → IsShapedCell (cell_image program cell (body_code (code_of program cell).body)) }
    ensures ends { (program : ProgramCode) (cell at : ℕ) (instr : Instr) → IsSound program
        → cell < cell_count program.grid → slice_get (body_code (code_of program cell).body) at ≡ Some instr
        → IsAtItsEnd program.messages cell instr }
{}

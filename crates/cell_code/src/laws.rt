ghost use Rattle.std.specs.Prelude.{ℕ, List, IsTrue};
ghost use Rattle.cell_code.specs.Checked.{is_checked};
ghost use Rattle.cell_code.specs.ShapedCells.{IsShapedCell};
ghost use Rattle.cell_code.specs.declared.image.CellImage.{CellImage};

/// A cell image that passes the tests of `specs/Checked.antt`, with some table of depths and within some number of
/// points, is shaped.
pub fn checked_cells_are_shaped()
    ensures { (image : CellImage) (table : List ℕ) (points : ℕ)
        → IsTrue (is_checked image table points) → IsShapedCell image }
{}

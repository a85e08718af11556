ghost use Rattle.std.specs.Prelude.{◌≡◌, ◌<◌, ℕ, IfOk, length};
ghost use Rattle.cell_code.specs.Images.{IsShaped};
ghost use Rattle.cell_code.specs.ShapedCells.{IsShapedCell};
ghost use Rattle.array_model.specs.States.{IsCounted, cell_of, cells};
ghost use Rattle.cell_machine.specs.Machine.{new_machine, IsReached};
ghost use Rattle.array_sim.specs.Simulations.{inputs_of, machine_at};

use cell_code::{CellImage, Image};
use cell_machine::CellState;
use std::alloc::Global;
use sys_base::{Inputs, Memory};

/// The machines of an image's cells, each at its first instruction.
pub(crate) fn new_cells(
    alloc: Global,
    image: &Image,
    inputs: Inputs,
) -> Result<Vec<CellState>, Memory>
    requires shaped { IsShaped image.now }
    requires lists { length inputs.cells ≡ cells image.now }
    requires counted { IsCounted image.now (inputs_of inputs.cells) }
    ensures machines { IfOk result (λ machines. length machines.items ≡ cells image.now) }
    ensures new { IfOk result (λ machines. (c : ℕ) → c < cells image.now →
        machine_at machines.items c ≡ new_machine c (cell_of image.now c) (inputs_of inputs.cells c)) }
    ensures reached { IfOk result (λ machines. (c : ℕ) → c < cells image.now →
        IsReached (cell_of image.now c) (machine_at machines.items c)) }
{
    let mut machines = Vec::with_capacity(alloc, usize::from(image.grid.cells()))?;
    for input in inputs.cells.into_vec() {
        let cell = machines.len();
        let machine = new_cell(
            alloc,
            cell as u16,
            &image.cells.as_slice()[cell],
            input.into_vec(),
        )?;
        machines.push(machine)?;
    }
    Ok(machines)
}

/// The machine of a cell, if its addresses are numbers below 2^32.
fn new_cell(
    alloc: Global,
    cell: u16,
    image: &CellImage,
    input: Vec<i64>,
) -> Result<CellState, Memory>
    requires shaped { IsShapedCell image.now }
    requires input { length input.items ≡ image.now.takes }
    ensures machine { IfOk result (λ m. m ≡ new_machine cell image.now input.items) }
    ensures reached { IfOk result (λ m. IsReached image.now m) }
{
    if image.code.len() > u32::MAX as usize {
        return Err(Memory);
    }
    CellState::new(alloc, cell, image, input)
}

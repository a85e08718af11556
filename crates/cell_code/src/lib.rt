//! The code of cells, and images: what an array runs (`specs/Rows.antt`, `specs/Alone.antt`, `specs/ShapedCells.antt`,
//! `specs/Images.antt`).
#![tactic(auto)]

mod image;
mod instruction;
mod laws;

pub use image::{CellImage, Group, Image, LinkImage, MessageImage};
pub use instruction::Instr;
pub use laws::checked_cells_are_shaped;

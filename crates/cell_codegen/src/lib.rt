//! The code of a cell, from its resolved statements (`specs/Emission.antt`, `specs/Following.antt`,
//! `specs/Shapes.antt`).
#![tactic(auto)]

mod cells;
mod emission;
mod laws;

pub use cells::emit_cell;
pub use laws::{code_ends_alone, code_is_shaped, code_is_sized};

//! The text of an image (`specs/Objects.antt`).
#![tactic(auto)]

mod laws;
mod words;
mod write_image;
mod write_instruction;
mod write_parts;

pub use laws::{instructions_have_their_lines, lines_have_their_words, one_image_for_a_text};
pub use write_image::write_object;

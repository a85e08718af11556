//! The image of a program: what an array runs for it (`specs/ImageOf.antt`), and what holds of it.
#![tactic(auto)]

mod laws;
mod parts;

pub use laws::{
    images_are_faithful, images_are_listed, images_are_regular, images_are_shaped, images_are_sure,
};
pub use parts::messages_keep_their_parts;

//! The image of a program, made of its layers (`build_image`). What it is stands in `program_image`,
//! `specs/ImageOf.antt`.
#![tactic(auto)]

mod building;
mod cells;
mod links;
mod messages;

pub use building::build_image;

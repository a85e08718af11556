//! The queues of one link: slots of a fixed number, each with a ring of words (`specs/Slots.antt`).
#![tactic(auto)]

mod slot;
mod slots;

pub use slot::Slot;
pub use slots::Slots;

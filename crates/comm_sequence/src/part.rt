use crate::comm::Comm;

/// A part of the list of a cell (`docs/model.md`, "Lists"): a write or a read, a word that is taken or emitted, or
/// what a loop repeats.
#[derive(Debug, Drop)]
pub enum Part {
    /// A write or a read.
    One(Comm),
    /// An input word is taken.
    Take,
    /// An output word is emitted.
    Emit,
    /// These parts, one after another, as often as there are turns.
    Repeat { turns: u32, parts: Vec<Part> },
}

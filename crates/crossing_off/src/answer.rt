use comm_sequence::Comm;

/// What crossing-off leaves (`docs/model.md`, "Crossing-off").
///
/// The ranges are those of a residue that `cross` gives.
#[derive(Debug, Drop)]
pub struct Residue {
    /// How many writes and reads are left in all lists together, at least 1.
    pub left: u32,
    /// The first operation that is left in the list of each cell, at the cell's index; `None` where nothing is left
    /// there.
    pub fronts: Vec<Option<Comm>>,
}

/// How crossing-off ends (`docs/model.md`, "Crossing-off").
#[derive(Debug, Drop)]
pub enum Crossed {
    /// Nothing is left. These are all writes and reads in the order in which they were crossed, which is an order for
    /// the buffer.
    Empty(Vec<Comm>),
    /// Something is left, and there is no order for the buffer of any kind.
    Left(Residue),
}

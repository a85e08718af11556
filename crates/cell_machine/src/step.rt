/// What a step of a cell came to.
#[derive(Clone, Copy, Debug, PartialEq, Eq)]
pub enum CellStep {
    /// The instruction was executed.
    Moved,
    /// The next instruction writes this message, and the port has no room for it.
    WaitsWrite(u16),
    /// The next instruction reads this message, and the port has no word of it.
    WaitsRead(u16),
    /// The next instruction is `halt`.
    Halted,
}

/// The kind of a fault.
#[derive(Clone, Copy, Debug, PartialEq, Eq)]
pub enum Kind {
    /// The result of an operator is outside the 64-bit signed numbers.
    O,
    /// The divisor is zero.
    Z,
    /// An index is outside its array.
    X,
}

/// A binary operator of the cell language.
#[derive(Clone, Copy, Debug, PartialEq, Eq)]
pub enum Op {
    Add,
    Sub,
    Mul,
    Div,
    Rem,
    Less,
    AtMost,
    Same,
    Differ,
}

/// A direction on the grid: north is one row up, east one column on, south one row down, west one column back.
#[derive(Clone, Copy, Debug, PartialEq, Eq)]
pub enum Dir {
    N,
    E,
    S,
    W,
}

/// What a stated limit of the language bounds.
#[derive(Clone, Copy, Debug, PartialEq, Eq)]
pub enum Limit {
    Rows,
    Columns,
    Queues,
    Messages,
    Label,
    Names,
    Words,
    Turns,
    Buffer,
}

use crate::kinds::Kind;

/// Why a word is no number: the kind of what went wrong, the cell that computed it, and the line of its statement.
#[derive(Clone, Copy, Debug, PartialEq, Eq)]
pub struct Fault {
    pub kind: Kind,
    pub cell: u16,
    pub line: u32,
}

/// What variables, elements and messages hold: a number, or the fault that stands in its place (`docs/model.md`,
/// "Words and faults").
#[derive(Clone, Copy, Debug, PartialEq, Eq)]
pub enum Word {
    Num(i64),
    Fault(Fault),
}

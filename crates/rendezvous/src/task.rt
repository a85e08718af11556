use cell_types::TypedStmt;
use sys_base::Word;

/// Something that a cell has still to do.
#[derive(Clone, Copy, Debug)]
pub(crate) enum Task<'a> {
    /// These statements.
    Rest(&'a [TypedStmt]),
    /// So many turns of a loop that are left, from this one on.
    Turns {
        counter: u8,
        turn: u16,
        left: u16,
        body: &'a [TypedStmt],
    },
}

/// Where a cell stops: it has a word to write to a message, or it wants the next word of a message in a variable.
#[derive(Clone, Copy, Debug)]
pub(crate) enum Event {
    Writes { message: u16, word: Word },
    Reads { message: u16, variable: u16 },
}

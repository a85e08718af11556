use crate::expression::TypedExpr;

/// A statement whose names are resolved (`docs/language.md`, "Names and what they mean").
#[cycle(statement)]
#[derive(Debug, Drop)]
pub struct TypedStmt {
    /// The line of its first token, as the syntax tree has it. Lines count from 1 (`docs/language.md`, "Tokens").
    pub line: u32,
    /// What it does.
    pub act: TypedAct,
}

/// What a statement does (`docs/language.md`, "What statements are for"; `specs/Code.antt`, `Action`).
///
/// A `word` is the offset of a variable among the cell's words, below `Cell::words`. A `message` is an index below the
/// number of messages. The ranges are those of a statement in a `Program` (`specs/Sound.antt`, `SoundAction`).
#[cycle(statement)]
#[derive(Debug, Drop)]
pub enum TypedAct {
    /// `x = e;`, where x is the variable `word`.
    Set {
        word: u16,
        value: TypedExpr,
    },
    /// `a[e] = f;`, where the array has `len` words from the offset `base` on. `len` is at least 1, and `base + len`
    /// is at most `Cell::words`.
    SetAt {
        base: u16,
        len: u16,
        index: TypedExpr,
        value: TypedExpr,
    },
    /// `write M e;`, in the cell that sends the message.
    Write {
        message: u16,
        value: TypedExpr,
    },
    /// `read M x;`, in the cell that receives the message; x is the variable `word`.
    Read {
        message: u16,
        word: u16,
    },
    /// `take x;`, where x is the variable `word`.
    Take {
        word: u16,
    },
    /// `emit e;`.
    Emit {
        value: TypedExpr,
    },
    /// `for i N { .. }`. `counter` is how many loops are around this one, 0 to 15; `turns` is 0 to 65,535.
    For {
        counter: u8,
        turns: u64,
        body: Vec<TypedStmt>,
    },
    /// `if e { .. } else { .. }`, with its first arm `yes` and its second arm `no`.
    If {
        test: TypedExpr,
        yes: Vec<TypedStmt>,
        no: Vec<TypedStmt>,
    },
}

use sys_base::Op;

/// An expression whose names are resolved (`docs/language.md`, "Names and what they mean"; `specs/Code.antt`,
/// `Expression`).
///
/// The ranges are those of an expression in a `Program` (`specs/Sound.antt`, `SoundExpression`).
#[derive(Debug, Drop)]
pub enum TypedExpr {
    /// A number, at most 9223372036854775807.
    Number(u64),
    /// A variable, by its offset among the cell's words, which is below `Cell::words`.
    Word(u16),
    /// A counter, by how many loops are around its own: 0 to 15, and fewer than are around the expression.
    Counter(u8),
    /// An element of an array, which has `len` words from the offset `base` on. `len` is at least 1, and `base + len`
    /// is at most `Cell::words`.
    At {
        base: u16,
        len: u16,
        index: Box<TypedExpr>,
    },
    /// A unary minus with its operand.
    Negate(Box<TypedExpr>),
    /// A binary operator with its left and its right operand.
    Binary(Op, Box<TypedExpr>, Box<TypedExpr>),
}

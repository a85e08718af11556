ghost use Rattle.std.specs.Prelude.{◌≡◌};
ghost use Rattle.cell_tree.specs.Operator.{op_level, left_of, right_of, fits};

use sys_base::Op;

/// How tightly an expression binds, the loosest first.
#[derive(Clone, Copy, Debug, PartialEq, Eq)]
pub enum Level {
    Comparison,
    Sum,
    Product,
    Unary,
    /// A number, a name or an element.
    Atom,
}

impl Level {
    /// The level of what an operator makes.
    pub fn of(op: Op) -> Level
        ensures { result ≡ op_level op }
    {
        match op {
            Op::Add | Op::Sub => Level::Sum,
            Op::Mul | Op::Div | Op::Rem => Level::Product,
            Op::Less | Op::AtMost | Op::Same | Op::Differ => Level::Comparison,
        }
    }

    /// The loosest level that the left operand of this level's operators has without parentheses.
    pub fn left(self) -> Level
        ensures { result ≡ left_of self }
    {
        match self {
            Level::Comparison | Level::Sum => Level::Sum,
            Level::Product => Level::Product,
            Level::Unary | Level::Atom => Level::Atom,
        }
    }

    /// The loosest level that the right or only operand of this level's operators has without parentheses.
    pub fn right(self) -> Level
        ensures { result ≡ right_of self }
    {
        match self {
            Level::Comparison => Level::Sum,
            Level::Sum => Level::Product,
            Level::Product => Level::Unary,
            Level::Unary | Level::Atom => Level::Atom,
        }
    }

    /// Whether an expression of this level stands without parentheses where `loosest` is the loosest one.
    pub fn fits(self, loosest: Level) -> bool
        ensures { result ≡ fits self loosest }
    {
        loosest as u8 <= self as u8
    }
}

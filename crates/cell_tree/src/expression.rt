use sqlite_items::Boxed;
use sys_base::{Name, Op};

/// An expression: parentheses leave no trace in it.
#[derive(Debug, Drop)]
pub enum Expr {
    Number(u64),
    /// A variable or a counter.
    Named(Name),
    /// An element of an array.
    At(Name, Boxed<Expr>),
    Negate(Boxed<Expr>),
    Binary(Op, Boxed<Expr>, Boxed<Expr>),
}

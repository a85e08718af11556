//! The syntax tree of the cell language, and its canonical text.
#![tactic(auto)]

mod expression;
mod laws;
mod level;
mod print_expression;
mod print_source;
mod print_statement;
mod source;
mod statement;
mod words;

pub use expression::Expr;
pub use laws::{printable_is_shallow, printable_routes_are_short};
pub use print_source::print;
pub use source::{CellDecl, LinkDecl, MessageDecl, Place, Source, VarDecl};
pub use statement::{Act, Stmt};

//! The parser of the cell language: from the tokens of a text to its syntax tree.
#![tactic(auto)]

mod cursor;
mod declaration;
mod error;
mod expression;
mod fault;
mod laws;
mod laws_printed;
mod limits;
mod names;
mod operator;
mod parsing;
mod parts;
mod program;
mod statement;

pub use error::ParseError;
pub use laws::{few_nodes, one_first_wrong, one_program, some_limit, some_program};
pub use laws_printed::{
    lines_are_not_printed, printed_is_in_the_grammar, printed_keeps_limits,
    printed_text_reads_back, read_is_printable,
};
pub use parsing::parse;

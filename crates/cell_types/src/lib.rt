//! Names and statics: a source whose names are resolved, or the first thing that is wrong with it.
#![tactic(auto)]

mod cell;
mod costs;
mod declared_cells;
mod depth;
mod error;
mod expression;
mod expressions;
mod laws;
mod links;
mod messages;
mod names;
mod program;
mod resolving;
mod scope;
mod statement;
mod statements;
mod table;
mod variables;

pub use cell::Cell;
pub use error::{Found, RouteFault, StaticError, What};
pub use expression::TypedExpr;
pub use laws::{
    alone_communicates, few_communications, few_instructions, routes_agree, some_program,
};
pub use program::{Message, Program};
pub use resolving::resolve;
pub use statement::{TypedAct, TypedStmt};

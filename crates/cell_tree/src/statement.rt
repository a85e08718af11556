use crate::expression::Expr;
use sys_base::{Items, Name};

/// A statement, and the line of its first token.
#[cycle(statement)]
#[derive(Debug, Drop)]
pub struct Stmt {
    pub line: u32,
    pub act: Act,
}

/// What a statement does.
#[cycle(statement)]
#[derive(Debug, Drop)]
pub enum Act {
    Set {
        name: Name,
        value: Expr,
    },
    SetAt {
        name: Name,
        index: Expr,
        value: Expr,
    },
    Write {
        message: Name,
        value: Expr,
    },
    Read {
        message: Name,
        name: Name,
    },
    Take {
        name: Name,
    },
    Emit {
        value: Expr,
    },
    For {
        counter: Name,
        turns: u64,
        body: Items<Stmt>,
    },
    If {
        test: Expr,
        yes: Items<Stmt>,
        no: Items<Stmt>,
    },
}

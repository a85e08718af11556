use crate::statement::Stmt;
use sys_base::{Dir, Items, Name};

/// A row and a column, as they are written.
#[derive(Clone, Copy, Debug, PartialEq, Eq)]
pub struct Place {
    pub row: u64,
    pub col: u64,
}

/// A whole source. Each line field is the line of the first token of what it belongs to.
#[derive(Debug, Drop)]
pub struct Source {
    pub rows: u64,
    pub cols: u64,
    pub array_line: u32,
    pub queues: u64,
    pub queues_line: u32,
    /// 0 where there is no `buffer` line.
    pub buffer: u64,
    /// 0 where there is no `buffer` line.
    pub buffer_line: u32,
    pub links: Items<LinkDecl>,
    pub messages: Items<MessageDecl>,
    pub cells: Items<CellDecl>,
}

/// The number of queues of one link.
#[derive(Clone, Copy, Debug, PartialEq, Eq)]
pub struct LinkDecl {
    pub place: Place,
    pub dir: Dir,
    pub queues: u64,
    pub line: u32,
}

/// A message from one cell to another.
#[derive(Debug, Drop)]
pub struct MessageDecl {
    pub name: Name,
    pub from: Place,
    pub to: Place,
    /// Empty where no route is given.
    pub route: Items<Dir>,
    pub label: Option<u64>,
    pub line: u32,
}

/// A variable, or an array where it has a length.
#[derive(Debug, Drop)]
pub struct VarDecl {
    pub name: Name,
    pub length: Option<u64>,
    pub line: u32,
}

/// The program of one cell.
#[derive(Debug, Drop)]
pub struct CellDecl {
    pub place: Place,
    pub vars: Items<VarDecl>,
    pub body: Items<Stmt>,
    pub line: u32,
}

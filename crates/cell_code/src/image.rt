use crate::instruction::Instr;
use sys_base::{Grid, Items};

/// What an array runs: the code of its cells, their messages, and the groups of messages that share the queues of
/// each link.
#[derive(Debug, Drop)]
pub struct Image {
    pub grid: Grid,
    /// The capacity that each queue has at least.
    pub buffer: u8,
    /// The most steps of a run.
    pub bound: u32,
    pub messages: Items<MessageImage>,
    /// One for each link that has a group, in order of id.
    pub links: Items<LinkImage>,
    /// One for each cell of the grid, by index.
    pub cells: Items<CellImage>,
}

/// A message: its sender and its receiver, how many words it has, its label, and the ids of the links of its route.
#[derive(Debug, Drop)]
pub struct MessageImage {
    pub from: u16,
    pub to: u16,
    pub length: u32,
    pub label: u16,
    pub route: Items<u16>,
}

/// A link with a group: its id, how many queues it has, and its groups in rising order of label.
#[derive(Debug, Drop)]
pub struct LinkImage {
    pub link: u16,
    pub queues: u8,
    pub groups: Items<Group>,
}

/// The messages of one label that use a link, by their indices in rising order.
#[derive(Debug, Drop)]
pub struct Group {
    pub label: u16,
    pub members: Items<u16>,
}

/// A cell: how many words it takes and emits, how many words its variables have, how many counters and how deep a
/// stack it needs, and its code.
#[derive(Debug, Drop)]
pub struct CellImage {
    pub takes: u32,
    pub emits: u32,
    pub words: u16,
    pub counters: u8,
    pub stack: u16,
    pub code: Items<Instr>,
}

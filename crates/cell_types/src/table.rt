ghost use Rattle.std.specs.Prelude.{◌≡◌, ◌≤◌, length};
ghost use Rattle.sys_base.specs.declared.limits.TheConstants.{MESSAGES};

mod finding;

use crate::names::NameSet;

/// The messages as statements name them: their names in order, and their ends.
#[derive(Drop)]
pub(crate) struct MessageTable<'a> {
    pub names: NameSet<'a>,
    pub ends: Vec<Ends>,
    ghost even: { length names.names.keys ≡ length ends.items },
    ghost few: { length ends.items ≤ MESSAGES },
}

/// The sender and the receiver of a message: cells, by their indices.
#[derive(Clone, Copy, Debug)]
pub(crate) struct Ends {
    pub from: u16,
    pub to: u16,
}

/// A message that a statement names: its index, and its ends.
#[derive(Clone, Copy, Debug)]
pub(crate) struct Entry {
    pub index: u16,
    pub from: u16,
    pub to: u16,
}

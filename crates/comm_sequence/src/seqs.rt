ghost use Rattle.std.specs.Prelude.{◌≡◌, ◌<◌, [], length, slice_get, slice_index, slice_index_or, All, Some};
ghost use Rattle.comm_sequence.specs.Sequences.{IsSequences};
ghost use Rattle.comm_sequence.specs.bodies.Walking.{from_trees, AreWalked};

use crate::cursor::Cursor;
use crate::part::Part;
use std::marker::Model;
use sys_base::Items;

/// What the cells of a program write and read, the lengths of its messages, and how many words its cells take and emit
/// (`docs/model.md`, "Lists").
///
/// There are at most 256 cells and 512 messages, and fewer than 2^32 writes and reads in all lists together. A
/// message goes from one cell to another one; only its sender writes it, and only its receiver reads it.
#[derive(Debug, Drop)]
pub struct Seqs {
    /// The writes and reads of each cell, in loops that have some.
    trees: Items<Items<Part>>,
    lengths: Items<u32>,
    takes: Items<u32>,
    emits: Items<u32>,
    ends: Items<(u16, u16)>,
}

impl Model for Seqs {
    ghost use Rattle.std.specs.Prelude.{All};
    ghost use Rattle.comm_sequence.specs.Sequences.{Sequences, IsSequences};
    ghost use Rattle.comm_sequence.specs.bodies.Walking.{from_trees, AreWalked};
    ghost use Rattle.comm_sequence.specs.contracts.comm.Comm as comm;
    ghost use Rattle.std.specs.Coded.{codes};

    ghost Value = { Sequences };

    ghost coded = { Prim.hlevel (codes, comm.the_row.coded) };

    ghost view = { λ s. from_trees s.trees s.lengths s.takes s.emits s.ends };

    ghost invariant = { λ s. IsSequences (from_trees s.trees s.lengths s.takes s.emits s.ends) × All AreWalked s.trees };
}

impl Seqs {
    /// The sequences with these parts.
    pub(crate) fn new(
        trees: Items<Items<Part>>,
        lengths: Items<u32>,
        takes: Items<u32>,
        emits: Items<u32>,
        ends: Items<(u16, u16)>,
    ) -> Seqs
        requires sequences { IsSequences (from_trees trees lengths takes emits ends) }
        requires walked { All AreWalked trees }
        ensures { result ≡ from_trees trees lengths takes emits ends }
    {
        Seqs {
            trees,
            lengths,
            takes,
            emits,
            ends,
        }
    }

    /// The writes and reads of a cell, from the first on. The cell's index is below `cells()`.
    pub fn cursor(&self, cell: u16) -> Cursor<'_>
        requires { cell < length self.now.lists }
        ensures list { result ≡ slice_index_or self.now.lists cell [] }
        ensures kept { IsSequences self.now }
    {
        match self.trees.get(usize::from(cell)) {
            Some(parts) => Cursor::new(parts.as_slice()),
            None => Cursor::new(&[]),
        }
    }

    /// The length of a message in words, which is its number of writes. The message's index is below
    /// `messages()`.
    pub fn length(&self, message: u16) -> u32
        requires { message < length self.now.ends }
        ensures length { result ≡ slice_index self.now.lengths message }
        ensures kept { IsSequences self.now }
    {
        self.lengths.as_slice()[message as usize]
    }

    /// How many input words a cell takes. The cell's index is below `cells()`.
    pub fn takes(&self, cell: u16) -> u32
        requires { cell < length self.now.lists }
        ensures takes { result ≡ slice_index self.now.takes cell }
        ensures kept { IsSequences self.now }
    {
        self.takes.as_slice()[cell as usize]
    }

    /// How many output words a cell emits. The cell's index is below `cells()`.
    pub fn emits(&self, cell: u16) -> u32
        requires { cell < length self.now.lists }
        ensures emits { result ≡ slice_index self.now.emits cell }
        ensures kept { IsSequences self.now }
    {
        self.emits.as_slice()[cell as usize]
    }

    /// The sender and the receiver of a message: two different cells, by their indices, which are below `cells()`. The
    /// message's index is below `messages()`.
    pub fn ends(&self, message: u16) -> (u16, u16)
        requires { message < length self.now.ends }
        ensures ends { slice_get self.now.ends message ≡ Some result }
        ensures kept { IsSequences self.now }
    {
        self.ends.as_slice()[message as usize]
    }

    /// The number of cells, at most 256.
    pub fn cells(&self) -> u16
        ensures cells { result ≡ length self.now.lists }
        ensures kept { IsSequences self.now }
    {
        self.trees.len() as u16
    }

    /// The number of messages, at most 512.
    pub fn messages(&self) -> u16
        ensures messages { result ≡ length self.now.ends }
        ensures kept { IsSequences self.now }
    {
        self.ends.len() as u16
    }
}

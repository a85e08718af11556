ghost use Rattle.std.specs.Prelude.{◌≡◌};
ghost use Rattle.cell_types.specs.Communications.{same_communication};
ghost use Rattle.comm_sequence.specs.Parts.{communication};
ghost use Rattle.comm_sequence.specs.Sequences.{comm_of};
ghost use Rattle.comm_sequence.specs.bodies.Unrolling.{communication_of};

use crate::comm::Comm;

/// One communication of a cell: a message, by its index, is written or read, or a word is taken or emitted.
#[derive(Clone, Copy, Debug, PartialEq, Eq)]
pub enum Entry {
    Write(u16),
    Read(u16),
    Take,
    Emit,
}

impl Entry {
    /// The entry of a write or a read.
    pub fn of(operation: Comm) -> Entry
        ensures { communication_of result ≡ communication operation }
    {
        match operation {
            Comm::Write(message) => Entry::Write(message),
            Comm::Read(message) => Entry::Read(message),
        }
    }

    /// The write or the read, if it is one.
    pub fn comm(self) -> Option<Comm>
        ensures { result ≡ comm_of (communication_of self) }
    {
        match self {
            Entry::Write(message) => Some(Comm::Write(message)),
            Entry::Read(message) => Some(Comm::Read(message)),
            Entry::Take => None,
            Entry::Emit => None,
        }
    }

    /// Whether it is the same as another one.
    pub fn is_same(self, other: Entry) -> bool
        ensures { result ≡ same_communication (communication_of self) (communication_of other) }
    {
        self == other
    }
}

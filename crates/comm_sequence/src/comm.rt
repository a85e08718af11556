ghost use Rattle.std.specs.Prelude.{◌≡◌};
ghost use Rattle.comm_sequence.specs.Sequences.{message_of};

/// One operation of a cell on a message, by the message's index (`docs/model.md`, "Lists").
///
/// In the lists of a `Seqs` the index is below the number of messages.
#[derive(Clone, Copy, Debug, PartialEq, Eq)]
pub enum Comm {
    /// The cell writes a word of the message. In a `Seqs` the cell is the message's sender.
    Write(u16),
    /// The cell reads a word of the message. In a `Seqs` the cell is the message's receiver.
    Read(u16),
}

impl Comm {
    /// The message's index.
    pub fn message(self) -> u16
        ensures { result ≡ message_of self }
    {
        match self {
            Comm::Write(message) | Comm::Read(message) => message,
        }
    }
}

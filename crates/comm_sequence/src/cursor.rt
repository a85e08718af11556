ghost use Rattle.std.specs.Prelude.{◌≡◌, [], ◌∷◌, MatchOption};
ghost use Rattle.comm_sequence.specs.Parts.{unrolled};
ghost use Rattle.comm_sequence.specs.Sequences.{comms};
ghost use Rattle.comm_sequence.specs.bodies.Walking.{AreWalked};

use crate::comm::Comm;
use crate::part::Part;
use crate::walking::Walk;
use std::marker::Model;

/// What is left of the list of a cell: its writes and reads, in order (`docs/model.md`, "Lists").
///
/// It comes from `Seqs::cursor` alone, so the index of a message is below the number of messages there. It unrolls no
/// loop, and takes no memory.
#[derive(Debug, Drop)]
pub struct Cursor<'a> {
    walk: Walk<'a>,
}

impl<'a> Model for Cursor<'a> {
    ghost use Rattle.std.specs.Prelude.{List};
    ghost use Rattle.comm_sequence.specs.declared.comm.Comm.{Comm};
    ghost use Rattle.comm_sequence.specs.contracts.comm.Comm as comm;
    ghost use Rattle.comm_sequence.specs.Sequences.{comms};
    ghost use Rattle.comm_sequence.specs.bodies.Walking.{left, IsCursor};
    ghost use Rattle.std.specs.Coded.{coded_list};

    ghost Value = { List Comm };

    ghost coded = { coded_list comm.the_row.coded };

    ghost view = { λ c. comms (left c.walk) };

    ghost invariant = { λ c. IsCursor c.walk };
}

impl<'a> Cursor<'a> {
    /// A cursor before these.
    pub(crate) fn new(parts: &'a [Part]) -> Cursor<'a>
        requires { AreWalked parts.now }
        ensures result { result ≡ comms (unrolled parts.now) }
    {
        Cursor {
            walk: Walk::new(parts),
        }
    }

    /// The first write or read that is left, which it passes; `None` exactly at the end, where it stays.
    pub fn next(&mut self) -> Option<Comm>
        ensures { MatchOption result ((self.old ≡ []) × (self.new ≡ [])) (λ first. self.old ≡ first ∷ self.new) }
    {
        self.walk.next()?.comm()
    }
}

//! The operations that wait to be tried.
ghost use Rattle.std.specs.Prelude.{◌<◌, ℕ, IfSome, MatchOption};
ghost use Rattle.sys_base.specs.declared.limits.TheConstants.{MESSAGES};
ghost use Rattle.crossing_off.specs.bodies.Waiting.{HasAdded, HasNoted, HasPopped, IsNew, MayWait, NoneWait};

use crate::waiting_set::WaitingSet;
use comm_sequence::Comm;

/// The reads and the writes that wait to be tried, by their messages.
#[derive(Drop)]
pub(crate) struct Waiting {
    reads: WaitingSet,
    writes: WaitingSet,
}

impl Waiting {
    /// Nothing waits.
    pub(crate) fn new() -> Waiting
        ensures { IsNew result }
    {
        Waiting {
            reads: WaitingSet::new(),
            writes: WaitingSet::new(),
        }
    }

    /// Lets both operations of a message wait.
    pub(crate) fn add(&mut self, message: u16)
        requires { message < MESSAGES }
        ensures { HasAdded self.old self.new message }
    {
        self.reads.insert(message);
        self.writes.insert(message);
    }

    /// Lets both operations of the message of an operation wait, if there is one.
    pub(crate) fn note(&mut self, front: Option<Comm>)
        requires { IfSome front MayWait }
        ensures { HasNoted front self.old self.new }
    {
        if let Some(operation) = front {
            self.add(operation.message());
        }
    }

    /// The read of the least message that waits, or else the write of the least one, which then no longer waits.
    pub(crate) fn pop(&mut self) -> Option<Comm>
        ensures { MatchOption result (NoneWait self.old self.new) (HasPopped self.old self.new) }
    {
        if let Some(message) = self.reads.take_least() {
            return Some(Comm::Read(message));
        }
        match self.writes.take_least() {
            Some(message) => Some(Comm::Write(message)),
            None => None,
        }
    }
}

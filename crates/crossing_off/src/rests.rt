//! What is left of a cell's list.
ghost use Rattle.std.specs.Prelude.{◌≡◌, ◌<◌, ◌≤◌, ◌^◌, length, drop, slice_get};

use comm_sequence::{Comm, Cursor};
use std::marker::Model;

/// What is left of a cell's list: the first operation, and a cursor after it.
#[derive(Drop)]
pub(crate) struct Rest<'a> {
    front: Option<Comm>,
    later: Cursor<'a>,
}

impl<'a> Model for Rest<'a> {
    ghost use Rattle.std.specs.Prelude.{List};
    ghost use Rattle.comm_sequence.specs.declared.comm.Comm.{Comm};
    ghost use Rattle.crossing_off.specs.bodies.Rests.{with_front};

    ghost Value = { List Comm };

    ghost view = { λ r. with_front r.front r.later };
}

impl<'a> Rest<'a> {
    /// What the cursor has left.
    pub(crate) fn new(mut later: Cursor<'a>) -> Rest<'a>
        ensures { result ≡ later.entry }
    {
        let front = later.next();
        Rest { front, later }
    }

    /// The first operation that is left.
    pub(crate) fn front(&self) -> Option<Comm>
        ensures { result ≡ slice_get self.now 0 }
    {
        self.front
    }

    /// Passes the first operation that is left.
    pub(crate) fn advance(&mut self)
        requires { 1 ≤ length self.old }
        ensures { self.new ≡ drop 1 self.old }
    {
        self.front = self.later.next();
    }

    /// How many operations are left.
    pub(crate) fn count(mut self) -> u32
        requires { length self < 2 ^ 32 }
        ensures { result ≡ length self.entry }
    {
        let mut count = 0;
        while self.front().is_some() {
            self.advance();
            count += 1;
        }
        count
    }
}

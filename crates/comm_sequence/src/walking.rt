ghost use Rattle.std.specs.Prelude.{◌≡◌, ◌≢◌, ◌+◌, ◌<◌, ◌≤◌, [], ◌∷◌, ◌++◌, All, IsTrue, MatchOption};
ghost use Rattle.cell_types.specs.Communications.{copies};
ghost use Rattle.comm_sequence.specs.Parts.{unrolled, loops};
ghost use Rattle.comm_sequence.specs.bodies.Unrolling.{communication_of};
ghost use Rattle.comm_sequence.specs.bodies.Walking.{HaveRoom, IsFull, IsWalk, left};

use crate::comm::Comm;
use crate::entry::Entry;
use crate::part::Part;

/// What is left of a loop: the rest of the turn that is walked, and how many turns more there are of the whole.
#[derive(Clone, Copy, Debug)]
pub(crate) struct Turns<'a> {
    rest: &'a [Part],
    whole: &'a [Part],
    more: u32,
}

/// A walk over parts, which unrolls no loop. It takes no memory: it has a fixed place for each loop that it may be in.
#[derive(Debug, Drop)]
pub(crate) struct Walk<'a> {
    /// The innermost loop, or the whole list.
    inner: Turns<'a>,
    /// What is around it, the outermost first.
    outer: [Turns<'a>; 16],
    /// How many places are in use.
    depth: usize,
}

impl<'a> Walk<'a> {
    /// A walk before these.
    pub(crate) fn new(parts: &'a [Part]) -> Walk<'a>
        requires { HaveRoom 16 parts.now }
        ensures walk { IsWalk result }
        ensures left { left result ≡ unrolled parts.now }
    {
        let whole = Turns {
            rest: parts,
            whole: parts,
            more: 0,
        };
        Walk {
            inner: whole,
            outer: [whole; 16],
            depth: 0,
        }
    }

    /// Goes on to where a part is next, and tells whether there is one.
    fn seek(&mut self) -> bool
        requires { IsWalk self.old }
        ensures walk { IsWalk self.new }
        ensures left { left self.new ≡ left self.old }
        ensures some { IsTrue result → self.new.inner.rest.now ≢ [] }
        ensures none { (IsTrue result → ⊥) → left self.old ≡ [] }
    {
        while self.inner.rest.is_empty() {
            if self.inner.more > 0 {
                self.inner.more -= 1;
                self.inner.rest = self.inner.whole;
                return true;
            }
            if self.depth == 0 {
                return false;
            }
            self.depth -= 1;
            let outer = &self.outer[..];
            self.inner = outer[self.depth];
        }
        true
    }

    /// Goes into a loop.
    fn enter(&mut self, turns: u32, parts: &'a [Part])
        requires walk { IsWalk self.old }
        requires turns { turns ≢ 0 }
        requires some { parts.now ≢ [] }
        requires full { All IsFull parts.now }
        requires room { loops parts.now + 1 + self.old.depth ≤ 16 }
        ensures walk { IsWalk self.new }
        ensures left { left self.new ≡ copies turns (unrolled parts.now) ++ left self.old }
        ensures depth { self.new.depth ≡ self.old.depth + 1 }
        ensures inside { self.new.inner.rest.now ≡ parts.now }
    {
        let (place, inner) = (self.depth, self.inner);
        let outer = &mut self.outer[..];
        outer[place] = inner;
        self.depth += 1;
        self.inner = Turns {
            rest: parts,
            whole: parts,
            more: turns - 1,
        };
    }

    /// The first communication that is left, which it passes; `None` exactly at the end, where it stays.
    pub(crate) fn next(&mut self) -> Option<Entry>
        requires { IsWalk self.old }
        ensures walk { IsWalk self.new }
        ensures left { MatchOption result ((left self.old ≡ []) × (left self.new ≡ []))
            (λ first. left self.old ≡ communication_of first ∷ left self.new) }
    {
        if !self.seek() {
            return None;
        }
        while let Some((part, rest)) = self.inner.rest.split_first() {
            self.inner.rest = rest;
            match part {
                Part::One(Comm::Write(message)) => return Some(Entry::Write(*message)),
                Part::One(Comm::Read(message)) => return Some(Entry::Read(*message)),
                Part::Take => return Some(Entry::Take),
                Part::Emit => return Some(Entry::Emit),
                Part::Repeat { turns, parts } => self.enter(*turns, parts.as_slice()),
            }
        }
        None
    }
}

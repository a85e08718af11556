//! Crossing-off by a worklist: the operations that may have become ready wait to be tried.
ghost use Rattle.std.specs.Prelude.{◌≡◌, ◌+◌, ◌-◌, ◌<◌, ◌≤◌, max, [], length, slice_index, slice_index_or, Some, IsTrue, ◌↔◌, All, IfOk, OnOk, ℕ};
ghost use Rattle.comm_sequence.specs.Sequences.{message_of};
ghost use Rattle.crossing_off.specs.Answer.{IsAnswer};
ghost use Rattle.crossing_off.specs.Greedy.{cell_of, IsStuck, IsWanted, MayCross};
ghost use Rattle.crossing_off.specs.bodies.Waiting.{MayWait};
ghost use Rattle.crossing_off.specs.bodies.Worklist.{front_at, work_left, CanCount, HasAdvanced, HasCounted, IsComplete, IsPopped, IsUnderWay};

use crate::rests::Rest;
use crate::waiting::Waiting;
use crate::wanted::wanted_of;
use crate::{Crossed, Residue};
use comm_sequence::{Comm, Seqs};
use std::alloc::Global;
use sys_base::Memory;

/// How far crossing-off has come.
#[derive(Drop)]
pub(crate) struct Crossing<'a> {
    /// What is left of each list.
    rests: Vec<Rest<'a>>,
    /// The operations that are to be tried.
    waiting: Waiting,
    /// How many crossed writes of each message have no crossed read.
    held: Vec<u8>,
    /// How many reads of each message have no crossed write, in its receiver's whole list.
    wanted: Vec<u32>,
    /// The operations that are crossed, in order.
    order: Vec<Comm>,
}

impl<'a> Crossing<'a> {
    /// Nothing is crossed, and the message at the front of each list waits.
    fn new(alloc: Global, seqs: &'a Seqs, buffer: u8) -> Result<Crossing<'a>, Memory>
        ensures under_way { IfOk result (IsUnderWay seqs.now buffer) }
        ensures complete { IfOk result (IsComplete seqs.now buffer) }
    {
        let mut crossing = Crossing {
            rests: Vec::new(alloc),
            waiting: Waiting::new(),
            held: vec![in alloc; 0u8; usize::from(seqs.messages())]?,
            wanted: wanted_of(alloc, seqs)?,
            order: Vec::new(alloc),
        };
        for cell in 0..seqs.cells() {
            let rest = Rest::new(seqs.cursor(cell));
            crossing.waiting.note(rest.front());
            crossing.rests.push(rest)?;
        }
        Ok(crossing)
    }

    /// Crosses the operation, if it may be crossed next.
    fn try_operation(&mut self, seqs: &Seqs, buffer: u8, operation: Comm) -> Result<(), Memory>
        requires under_way { IsUnderWay seqs.now buffer self.old }
        requires popped { IsPopped seqs.now buffer self.old operation }
        ensures under_way { OnOk result (IsUnderWay seqs.now buffer self.new) }
        ensures complete { OnOk result (IsComplete seqs.now buffer self.new) }
        ensures work { OnOk result (work_left self.new ≤ work_left self.old) }
    {
        if !self.may_cross(seqs, buffer, operation) {
            return Ok(());
        }
        self.order.push(operation)?;
        self.count(operation);
        self.advance(cell_of(seqs, operation));
        self.waiting.add(operation.message());
        Ok(())
    }

    /// Whether the operation may be crossed next.
    fn may_cross(&self, seqs: &Seqs, buffer: u8, operation: Comm) -> bool
        requires under_way { IsUnderWay seqs.now buffer self.now }
        requires known { message_of operation < length seqs.now.ends }
        ensures { IsTrue result ↔ MayCross seqs.now buffer self.now.order.items operation }
    {
        if !self.is_first(cell_of(seqs, operation), operation) {
            return false;
        }
        let held = self.held[usize::from(operation.message())];
        match operation {
            Comm::Read(_) => held > 0,
            Comm::Write(message) => {
                held < buffer.max(1) && self.is_wanted(seqs, buffer, message)
            }
        }
    }

    /// Whether the next word of the message will be read.
    fn is_wanted(&self, seqs: &Seqs, buffer: u8, message: u16) -> bool
        requires under_way { IsUnderWay seqs.now buffer self.now }
        requires known { message < length seqs.now.ends }
        ensures { IsTrue result ↔ IsWanted seqs.now buffer self.now.order.items message }
    {
        if buffer == 0 {
            return self.is_first(cell_of(seqs, Comm::Read(message)), Comm::Read(message));
        }
        self.wanted[usize::from(message)] > 0
    }

    /// Whether the operation stands first in what is left of the cell's list.
    fn is_first(&self, cell: u16, operation: Comm) -> bool
        requires { cell < length self.now.rests.items }
        ensures { IsTrue result ↔ (front_at self.now.rests.items cell ≡ Some operation) }
    {
        self.rests[usize::from(cell)].front() == Some(operation)
    }

    /// Counts an operation that is crossed.
    fn count(&mut self, operation: Comm)
        requires { CanCount self.old operation }
        ensures { HasCounted self.old self.new operation }
    {
        match operation {
            Comm::Write(message) => {
                let index = usize::from(message);
                self.held[index] += 1;
                self.wanted[index] = self.wanted[index].saturating_sub(1);
            }
            Comm::Read(message) => self.held[usize::from(message)] -= 1,
        }
    }

    /// Passes the first operation of a cell's list, and lets the message of the next one wait.
    fn advance(&mut self, cell: u16)
        requires cell { cell < length self.old.rests.items }
        requires some { 1 ≤ length (slice_index_or self.old.rests.items cell []) }
        requires known { All MayWait (slice_index_or self.old.rests.items cell []) }
        ensures { HasAdvanced self.old self.new cell }
    {
        let rest = &mut self.rests[usize::from(cell)];
        rest.advance();
        let front = rest.front();
        self.waiting.note(front);
    }

    /// The answer, once no operation may be crossed any more.
    fn finish(self, alloc: Global, seqs: &Seqs, buffer: u8) -> Result<Crossed, Memory>
        requires under_way { IsUnderWay seqs.now buffer self }
        requires stuck { IsStuck seqs.now buffer self.order.items }
        ensures { IfOk result (IsAnswer seqs.now buffer) }
    {
        let mut left = 0;
        let mut fronts = Vec::new(alloc);
        for rest in self.rests {
            fronts.push(rest.front())?;
            left += rest.count();
        }
        if left == 0 {
            return Ok(Crossed::Empty(self.order));
        }
        Ok(Crossed::Left(Residue { left, fronts }))
    }
}

/// The cell of an operation: the sender of the message for a write, its receiver for a read.
fn cell_of(seqs: &Seqs, operation: Comm) -> u16
    requires { message_of operation < length seqs.now.ends }
    ensures { cell_of seqs.now.ends operation ≡ Some result }
{
    let (sender, receiver) = seqs.ends(operation.message());
    match operation {
        Comm::Write(_) => sender,
        Comm::Read(_) => receiver,
    }
}

/// Crosses off the writes and reads of a program for a buffer, by the greedy rule (`docs/model.md`, "Crossing-off").
///
/// An operation may be crossed where it stands first in what is left of its cell's list. A read needs a crossed write
/// of its message that has no crossed read. A write needs room: fewer than `buffer` crossed writes of its message
/// have no crossed read; and its receiver has to have a read for it. Without a buffer a write needs that the read
/// stands first as well, and the read is crossed at once after it. Reads go before writes, and otherwise the least
/// message goes first.
///
/// `Empty` has all writes and reads in the order in which they were crossed, which is an order for the buffer; `Left`
/// comes exactly where there is no order for it of any kind. A message is given by its index, below
/// `seqs.messages()`, and a cell by its own, below `seqs.cells()`. The only error is want of memory, which may come
/// for any `seqs`.
///
/// The time is linear in the number of operations.
pub fn cross(alloc: Global, seqs: &Seqs, buffer: u8) -> Result<Crossed, Memory>
    ensures { IfOk result (IsAnswer seqs.now buffer) }
{
    let mut crossing = Crossing::new(alloc, seqs, buffer)?;
    while let Some(operation) = crossing.waiting.pop() {
        crossing.try_operation(seqs, buffer, operation)?;
    }
    crossing.finish(alloc, seqs, buffer)
}

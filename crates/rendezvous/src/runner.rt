ghost use Rattle.std.specs.Prelude.{◌≡◌, ◌≢◌, ◌+◌, ◌*◌, ◌<◌, ◌≤◌, ⊤, [], IfOk};
ghost use Rattle.std.specs.Vec.{vec_len};
ghost use Rattle.sys_base.specs.Communications.{copies};
ghost use Rattle.sys_base.specs.Held.{with_word};
ghost use Rattle.sys_base.specs.declared.limits.TheConstants.{TURNS};
ghost use Rattle.cell_types.specs.Alike.{AlikeAction, AlikeBlock, InTurns};
ghost use Rattle.cell_types.specs.Communications.{action_communications, block_communications};
ghost use Rattle.cell_types.specs.Cost.{action_cost, block_cost};
ghost use Rattle.cell_types.specs.Solo.{do_action, do_block, opening};
ghost use Rattle.cell_types.specs.Typed.{action_of, block_of};
ghost use Rattle.rendezvous.specs.bodies.Fitting.{FitsAction, FitsBlock};
ghost use Rattle.rendezvous.specs.bodies.Running.{do_turns, rest_weight, tasks_weight, turns_weight, Comes, Goes, IsBefore, IsReady, IsReadyAt, IsReadyFor, HasPlace};
ghost use Rattle.rendezvous.specs.bodies.Stores.{held_of, KeepsSize};

use crate::store::Store;
use crate::task::{Event, Task};
use cell_types::{Cell, TypedAct, TypedStmt};
use std::alloc::Global;
use sys_base::{Memory, Word};

/// A cell that runs its statements, and stops at each write and read.
#[derive(Debug, Drop)]
pub(crate) struct Runner<'a> {
    pub store: Store,
    pub input: &'a [i64],
    /// What it has still to do, the last task first.
    pub tasks: Vec<Task<'a>>,
}

impl<'a> Runner<'a> {
    /// A cell before its statements, by its index.
    pub(crate) fn new(
        alloc: Global,
        index: u16,
        cell: &'a Cell,
        input: &'a [i64],
    ) -> Result<Runner<'a>, Memory>
        ensures held { IfOk result (λ r. held_of r.store ≡ (opening cell.now.words cell.now.counters).held) }
        ensures cell { IfOk result (λ r. r.store.cell ≡ index) }
        ensures input { IfOk result (λ r. r.input.now ≡ input.now) }
        ensures before { IfOk result (λ r. IsBefore r (block_of cell.now.body.items)) }
    {
        let mut tasks = Vec::new(alloc);
        tasks.push(Task::Rest(cell.body.as_slice()))?;
        Ok(Runner {
            store: Store::new(alloc, index, cell)?,
            input,
            tasks,
        })
    }

    /// Runs up to the next write or read, and tells it; `None` at the end of the statements.
    pub(crate) fn next(&mut self) -> Result<Option<Event>, Memory>
        requires { IsReady self.old }
        ensures goes { IfOk result (λ event. Goes self.old self.new event) }
        ensures ready { IfOk result (λ event. IsReady self.new) }
        ensures place { IfOk result (λ event. HasPlace self.new event) }
        ensures ends { IfOk result (λ event. event ≡ None → self.new.tasks.items ≡ []) }
    {
        while !self.tasks.is_empty() {
            if let Some(event) = self.step()? {
                return Ok(Some(event));
            }
        }
        Ok(None)
    }

    /// The words that it has emitted.
    pub(crate) fn into_output(self) -> Vec<Word>
        ensures { result.items ≡ self.entry.store.output.items }
    {
        let Runner {
            store,
            input: _,
            tasks: _,
        } = self;
        store.into_output()
    }

    /// Does the first statement or turn that is left.
    fn step(&mut self) -> Result<Option<Event>, Memory>
        requires ready { IsReady self.old }
        requires some { self.old.tasks.items ≢ [] }
        ensures goes { IfOk result (λ event. Goes self.old self.new event) }
        ensures ready { IfOk result (λ event. IsReadyAt self.new event (tasks_weight self.old.tasks.items)) }
    {
        match self.tasks.pop() {
            None => Ok(None),
            Some(Task::Rest(statements)) => self.begin(statements),
            Some(
                Task::Turns {
                    counter,
                    turn,
                    left,
                    body,
                },
            ) => self.turn(counter, turn, left, body),
        }
    }

    /// Does the first of some statements; the others are left.
    fn begin(&mut self, statements: &'a [TypedStmt]) -> Result<Option<Event>, Memory>
        requires ready { IsReadyFor self.old
            (FitsBlock (vec_len self.old.store.words) (vec_len self.old.store.counters) (block_of statements.now))
            (rest_weight (block_of statements.now)) }
        ensures comes { IfOk result (λ event. Comes
            (λ v. do_block self.old.store.cell self.old.input.now v (block_of statements.now))
            (block_communications (block_of statements.now)) (AlikeBlock (block_of statements.now))
            self.old self.new event) }
        ensures ready { IfOk result (λ event. IsReadyAt self.new event
            (rest_weight (block_of statements.now) + tasks_weight self.old.tasks.items)) }
    {
        let Some((first, rest)) = statements.split_first() else {
            return Ok(None);
        };
        self.tasks.push(Task::Rest(rest))?;
        self.act(first.line, &first.act)
    }

    /// Begins a turn of a loop, or ends the loop where none is left.
    fn turn(
        &mut self,
        counter: u8,
        turn: u16,
        left: u16,
        body: &'a [TypedStmt],
    ) -> Result<Option<Event>, Memory>
        requires ready { IsReadyFor self.old ((counter < vec_len self.old.store.counters) × (turn + left ≤ TURNS)
            × FitsBlock (vec_len self.old.store.words) (vec_len self.old.store.counters) (block_of body.now))
            (turns_weight left (block_of body.now)) }
        ensures comes { IfOk result (λ event. Comes
            (λ v. do_turns self.old.store.cell self.old.input.now v counter turn left (block_of body.now))
            (copies left (block_communications (block_of body.now))) (InTurns left (AlikeBlock (block_of body.now)))
            self.old self.new event) }
        ensures ready { IfOk result (λ event. IsReadyAt self.new event
            (turns_weight left (block_of body.now) + tasks_weight self.old.tasks.items)) }
    {
        self.store.count(counter, turn);
        if left > 0 {
            self.tasks.push(Task::Turns {
                counter,
                turn: turn + 1,
                left: left - 1,
                body,
            })?;
            self.tasks.push(Task::Rest(body))?;
        }
        Ok(None)
    }

    /// Does what a statement on a line says.
    fn act(&mut self, line: u32, act: &'a TypedAct) -> Result<Option<Event>, Memory>
        requires ready { IsReadyFor self.old
            (FitsAction (vec_len self.old.store.words) (vec_len self.old.store.counters) (action_of act.now))
            (2 * action_cost (action_of act.now)) }
        ensures comes { IfOk result (λ event. Comes
            (λ v. do_action self.old.store.cell self.old.input.now v line (action_of act.now))
            (action_communications (action_of act.now)) (AlikeAction (action_of act.now)) self.old self.new event) }
        ensures ready { IfOk result (λ event. IsReadyAt self.new event
            (2 * action_cost (action_of act.now) + tasks_weight self.old.tasks.items)) }
    {
        match act {
            TypedAct::Set { word, value } => {
                let value = self.store.value(line, value);
                self.store.set(*word, value);
                Ok(None)
            }
            TypedAct::SetAt {
                base,
                len,
                index,
                value,
            } => {
                let index = self.store.value(line, index);
                let value = self.store.value(line, value);
                self.store.set_element(*base, *len, index, value, line);
                Ok(None)
            }
            TypedAct::Write { message, value } => {
                let word = self.store.given(self.store.value(line, value));
                Ok(Some(Event::Writes {
                    message: *message,
                    word,
                }))
            }
            TypedAct::Read { message, word } => Ok(Some(Event::Reads {
                message: *message,
                variable: *word,
            })),
            TypedAct::Take { word } => {
                self.store.take(self.input, *word);
                Ok(None)
            }
            TypedAct::Emit { value } => {
                let value = self.store.value(line, value);
                self.store.emit(value)?;
                Ok(None)
            }
            TypedAct::For {
                counter,
                turns,
                body,
            } => {
                self.tasks.push(Task::Turns {
                    counter: *counter,
                    turn: 0,
                    left: *turns as u16,
                    body: body.as_slice(),
                })?;
                Ok(None)
            }
            TypedAct::If { test, yes, no } => {
                let word = self.store.value(line, test);
                let arm = if self.store.test(word) { yes } else { no };
                self.tasks.push(Task::Rest(arm.as_slice()))?;
                Ok(None)
            }
        }
    }
}

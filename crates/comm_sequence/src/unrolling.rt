ghost use Rattle.std.specs.Prelude.{◌≡◌, ◌+◌, ◌↔◌, [], All, IsTrue};
ghost use Rattle.cell_types.specs.Communications.{action_communications, block_communications, copies};
ghost use Rattle.cell_types.specs.Depth.{action_loops, block_loops};
ghost use Rattle.cell_types.specs.Typed.{action_of, block_of};
ghost use Rattle.comm_sequence.specs.Differing.{differing, differing_in};
ghost use Rattle.comm_sequence.specs.Parts.{part_loops, part_unrolled, unrolled, loops};
ghost use Rattle.comm_sequence.specs.bodies.Unrolling.{IsArm, IsBuilt, IsShallow, IsShallowAction};
ghost use Rattle.comm_sequence.specs.bodies.Walking.{HaveRoom, IsFull};
ghost use Rattle.comm_sequence.specs.declared.unrolling.Stop.TheVariants as S;

use crate::comm::Comm;
use crate::part::Part;
use crate::trimming::push_loop;
use crate::walking::Walk;
use cell_types::{TypedAct, TypedStmt};
use std::alloc::{AllocError, AllocFailed, Global};

/// Why a body has no parts: the arms of the `if` on a line differ, or memory ran out.
#[derive(Clone, Copy, Debug, PartialEq, Eq)]
pub enum Stop {
    Differ(u32),
    Memory,
}

impl From<AllocError> for Stop {
    ghost from_gives = { λ _ e. e ≡ S.Memory };

    fn from(_error: AllocError) -> Stop {
        Stop::Memory
    }
}

impl<T: Drop> From<AllocFailed<T>> for Stop {
    ghost from_gives = { λ _ e. e ≡ S.Memory };

    fn from(_error: AllocFailed<T>) -> Stop {
        Stop::Memory
    }
}

/// Appends the communications of statements as parts. Each `if` that is not in a loop of 0 turns is compared once.
#[cycle(build)]
pub(crate) fn build(alloc: Global, body: &[TypedStmt], parts: &mut Vec<Part>) -> Result<(), Stop>
    requires { IsShallow (block_of body.now) }
    ensures { IsBuilt parts.old.items (differing (block_of body.now)) (block_communications (block_of body.now))
        (block_loops (block_of body.now)) result parts.new.items }
{
    for statement in body {
        build_act(alloc, statement.line, &statement.act, parts)?;
    }
    Ok(())
}

/// Appends the communications of what a statement on a line does.
#[cycle(build)]
fn build_act(alloc: Global, line: u32, act: &TypedAct, parts: &mut Vec<Part>) -> Result<(), Stop>
    requires { IsShallowAction (action_of act.now) }
    ensures { IsBuilt parts.old.items (differing_in line (action_of act.now))
        (action_communications (action_of act.now)) (action_loops (action_of act.now)) result parts.new.items }
{
    match act {
        TypedAct::Set { .. } => Ok(()),
        TypedAct::SetAt { .. } => Ok(()),
        TypedAct::Write { message, .. } => append(parts, Part::One(Comm::Write(*message))),
        TypedAct::Read { message, .. } => append(parts, Part::One(Comm::Read(*message))),
        TypedAct::Take { .. } => append(parts, Part::Take),
        TypedAct::Emit { .. } => append(parts, Part::Emit),
        TypedAct::For { turns, body, .. } => {
            if *turns == 0 {
                return Ok(());
            }
            let mut inner = Vec::new(alloc);
            build(alloc, body.as_slice(), &mut inner)?;
            append_loop(parts, *turns as u32, inner)
        }
        TypedAct::If { yes, no, .. } => {
            let mut first = Vec::new(alloc);
            build(alloc, yes.as_slice(), &mut first)?;
            let mut second = Vec::new(alloc);
            build(alloc, no.as_slice(), &mut second)?;
            append_arm(parts, line, first, second)
        }
    }
}

/// Appends one part that is no loop.
fn append(parts: &mut Vec<Part>, part: Part) -> Result<(), Stop>
    requires flat { part_loops part ≡ 0 }
    requires full { IsFull part }
    ensures { IsBuilt parts.old.items [] (part_unrolled part) 0 result parts.new.items }
{
    parts.push(part)?;
    Ok(())
}

/// Appends a loop.
fn append_loop(parts: &mut Vec<Part>, turns: u32, inner: Vec<Part>) -> Result<(), Stop>
    requires { All IsFull inner.items }
    ensures { IsBuilt parts.old.items [] (copies turns (unrolled inner.items)) (1 + loops inner.items)
        result parts.new.items }
{
    push_loop(parts, turns, inner)?;
    Ok(())
}

/// Appends the first arm of an `if` on a line, where the second one communicates the same.
fn append_arm(
    parts: &mut Vec<Part>,
    line: u32,
    mut first: Vec<Part>,
    second: Vec<Part>,
) -> Result<(), Stop>
    requires first { HaveRoom 16 first.items }
    requires second { HaveRoom 16 second.items }
    ensures { IsArm parts.old.items (unrolled first.items) (unrolled second.items) line
        (loops first.items) result parts.new.items }
{
    if !same(first.as_slice(), second.as_slice()) {
        return Err(Stop::Differ(line));
    }
    parts.append(&mut first)?;
    Ok(())
}

/// Whether parts communicate the same.
fn same(first: &[Part], second: &[Part]) -> bool
    requires first { HaveRoom 16 first.now }
    requires second { HaveRoom 16 second.now }
    ensures { IsTrue result ↔ (unrolled first.now ≡ unrolled second.now) }
{
    let mut first = Walk::new(first);
    let mut second = Walk::new(second);
    while let Some(entry) = first.next() {
        let Some(other) = second.next() else {
            return false;
        };
        if !entry.is_same(other) {
            return false;
        }
    }
    second.next().is_none()
}

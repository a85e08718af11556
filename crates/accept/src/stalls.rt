//! The refusal of a program that crossing-off does not empty, with the lines of its walk.
ghost use Rattle.std.specs.Prelude.{◌≡◌, IfOk, All};
ghost use Rattle.cell_types.specs.Sound.{IsSound};
ghost use Rattle.cell_types.specs.Typed.{plain};
ghost use Rattle.comm_sequence.specs.Sequences.{sequences_of};
ghost use Rattle.crossing_off.specs.Answer.{IsLeft};
ghost use Rattle.accept.specs.bodies.Answers.{IsEndOf, IsWaitOf};
ghost use Rattle.accept.specs.FirstRefusal.{IsStalled};
ghost use Rattle.accept.specs.Told.{end_line, wait_line, waiting, walk_lines};

use cell_types::Program;
use comm_sequence::{Comm, Seqs};
use crossing_off::{Residue, Wait, WaitWalk, WalkEnd, walk};
use refusals::{Refusal, WalkLine};
use std::alloc::Global;
use sys_base::{CellName, Items, Memory, Name};

/// The refusal of a program that crossing-off leaves with this residue.
pub fn stall(
    alloc: Global,
    program: &Program,
    seqs: &Seqs,
    residue: &Residue,
) -> Result<Refusal, Memory>
    requires sound { IsSound (plain program.now) }
    requires seqs { seqs.now ≡ sequences_of (plain program.now) }
    requires left { IsLeft seqs.now program.now.buffer residue.now }
    ensures { IfOk result (IsStalled (plain program.now)) }
{
    let walk = walk(alloc, seqs, residue)?;
    Ok(Refusal::Crossing {
        left: residue.left,
        walk: walk_lines(alloc, program, &walk)?,
    })
}

/// The lines of a walk: one for each wait, and that of its end.
fn walk_lines(alloc: Global, program: &Program, walk: &WaitWalk) -> Result<Items<WalkLine>, Memory>
    requires waits { All (IsWaitOf (plain program.now)) walk.now.waits.items }
    requires end { IsEndOf (plain program.now) walk.now.end }
    ensures { IfOk result (λ lines. lines ≡ walk_lines (plain program.now) walk.now.waits.items walk.now.end) }
{
    let mut lines = Items::new(alloc);
    for wait in &walk.waits {
        lines.push(wait_line(program, *wait)?)?;
    }
    lines.push(end_line(program, walk.end))?;
    Ok(lines)
}

/// The line of a wait.
fn wait_line(program: &Program, wait: Wait) -> Result<WalkLine, Memory>
    requires { IsWaitOf (plain program.now) wait }
    ensures { IfOk result (λ line. line ≡ wait_line (plain program.now) wait) }
{
    let grid = program.grid();
    let (cell, partner) = (grid.cell_name(wait.cell), grid.cell_name(wait.partner));
    let message = program.messages()[usize::from(wait.front.message())]
        .name
        .copy()?;
    Ok(waiting(wait.front, cell, message, partner))
}

/// A cell waits with its first operation, which is of this message, for its partner.
fn waiting(front: Comm, cell: CellName, message: Name, partner: CellName) -> WalkLine
    ensures { result ≡ waiting front cell message partner }
{
    match front {
        Comm::Write(_) => WalkLine::WaitsToWrite {
            cell,
            message,
            receiver: partner,
        },
        Comm::Read(_) => WalkLine::WaitsToRead {
            cell,
            message,
            sender: partner,
        },
    }
}

/// The line of the end of a walk.
fn end_line(program: &Program, end: WalkEnd) -> WalkLine
    requires { IsEndOf (plain program.now) end }
    ensures { result ≡ end_line (plain program.now) end }
{
    match end {
        WalkEnd::Again(cell) => WalkLine::Again(program.grid().cell_name(cell)),
        WalkEnd::NothingLeft(cell) => WalkLine::NothingLeft(program.grid().cell_name(cell)),
    }
}

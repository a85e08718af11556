//! The walk of a refusal.
ghost use Rattle.std.specs.Prelude.{◌≡◌, ◌<◌, ◌≤◌, ℕ, Some, length, IfOk};
ghost use Rattle.comm_sequence.specs.Sequences.{message_of};
ghost use Rattle.comm_sequence.specs.declared.comm.Comm.{Comm};
ghost use Rattle.crossing_off.specs.Answer.{IsResidue};
ghost use Rattle.crossing_off.specs.Walk.{partner_of, HasFront, IsLeastLeft, IsWalk};

use crate::Residue;
use comm_sequence::{Comm, Seqs};
use std::alloc::Global;
use sys_base::Memory;

/// A cell with something left, and the cell that it waits for (`docs/model.md`, "The walk of a refusal").
///
/// The ranges are those of a wait in what `walk` gives.
#[derive(Clone, Copy, Debug, PartialEq, Eq)]
pub struct Wait {
    /// The index of the cell that waits, below the number of cells.
    pub cell: u16,
    /// The first operation that is left in its list.
    pub front: Comm,
    /// The index of the cell that it waits for, below the number of cells: the receiver of a message that it is to
    /// write, the sender of one that it is to read.
    pub partner: u16,
}

/// Where a walk ends: at the cell that its last wait waits for, by the cell's index, which is below the number of
/// cells in what `walk` gives.
#[derive(Clone, Copy, Debug, PartialEq, Eq)]
pub enum WalkEnd {
    /// The walk has already visited this cell.
    Again(u16),
    /// This cell has nothing left.
    NothingLeft(u16),
}

/// The cells that a walk visits, in its order, and where it ends. What `walk` gives has one wait at least, and no cell
/// waits in it twice.
#[derive(Debug, Drop)]
pub struct WaitWalk {
    pub waits: Vec<Wait>,
    pub end: WalkEnd,
}

/// Walks from the least cell with something left to the cell that it waits for, and on from there, up to the first
/// cell that it has already visited or that has nothing left (`docs/model.md`, "The walk of a refusal").
///
/// The residue is that of these sequences for some buffer, with something left in it. The only error is want of
/// memory, which may come for any residue.
///
/// It visits each cell once at most, and its time is linear in the number of cells.
pub fn walk(alloc: Global, seqs: &Seqs, residue: &Residue) -> Result<WaitWalk, Memory>
    requires residue { (buffer : ℕ) × IsResidue seqs.now buffer residue.now }
    requires left { 1 ≤ residue.now.left }
    ensures { IfOk result (IsWalk seqs.now residue.now) }
{
    let mut waits = Vec::new(alloc);
    let mut visited = vec![in alloc; false; usize::from(seqs.cells())]?;
    let mut cell = first_left(&residue.fronts);
    while !visited[usize::from(cell)] {
        let Some(front) = residue.fronts[usize::from(cell)] else {
            let end = WalkEnd::NothingLeft(cell);
            return Ok(WaitWalk { waits, end });
        };
        visited[usize::from(cell)] = true;
        let partner = partner_of(seqs, front);
        waits.push(Wait {
            cell,
            front,
            partner,
        })?;
        cell = partner;
    }
    let end = WalkEnd::Again(cell);
    Ok(WaitWalk { waits, end })
}

/// The least cell with something left.
fn first_left(fronts: &[Option<Comm>]) -> u16
    requires cells { length fronts.now ≤ 256 }
    requires some { (cell : ℕ) × (comm : Comm) × HasFront fronts.now cell comm }
    ensures { IsLeastLeft fronts.now result }
{
    let mut cell = 0;
    while fronts[usize::from(cell)].is_none() {
        cell += 1;
    }
    cell
}

/// The other end of the operation's message.
fn partner_of(seqs: &Seqs, comm: Comm) -> u16
    requires { message_of comm < length seqs.now.ends }
    ensures { partner_of seqs.now.ends comm ≡ Some result }
{
    let (sender, receiver) = seqs.ends(comm.message());
    match comm {
        Comm::Write(_) => receiver,
        Comm::Read(_) => sender,
    }
}

ghost use Rattle.std.specs.Prelude.{◌≡◌, ◌+◌, ◌<◌, ◌≤◌, ◌^◌, [], length, map, sum_by, IfOk, IfErr, All};
ghost use Rattle.std.specs.Global.{Vec};
ghost use Rattle.sys_base.specs.declared.limits.TheConstants.{STEPS};
ghost use Rattle.cell_types.specs.Code.{CellCode};
ghost use Rattle.cell_types.specs.Communications.{Writes, block_communications, times};
ghost use Rattle.cell_types.specs.Alike.{Alike};
ghost use Rattle.cell_types.specs.Cost.{cells_cost};
ghost use Rattle.cell_types.specs.Groups.{below};
ghost use Rattle.cell_types.specs.Typed.{block_of, plain};
ghost use Rattle.cell_types.specs.declared.program.Message.{Message};
ghost use Rattle.comm_sequence.specs.Differing.{all_differing, differing, IsFirst};
ghost use Rattle.comm_sequence.specs.Gathered.{all_unrolled, gathered, AreCommunications};
ghost use Rattle.comm_sequence.specs.Parts.{unrolled, loops};
ghost use Rattle.comm_sequence.specs.Sequences.{sequences_of};
ghost use Rattle.comm_sequence.specs.bodies.Unrolling.{communication_of, IsShallow};
ghost use Rattle.comm_sequence.specs.bodies.Walking.{operations, AreWalked, IsFull, IsWritten};
ghost use Rattle.comm_sequence.specs.declared.part.Part.{Part};

use crate::counting::{add_writes, count};
use crate::entry::Entry;
use crate::error::CommError;
use crate::part::Part;
use crate::seqs::Seqs;
use crate::trimming::operations_of;
use crate::unrolling::{Stop, build};
use cell_types::{Message, Program, TypedStmt, few_communications};
use std::alloc::{AllocError, Global};
use sys_base::{Items, Memory};

/// The parts of each cell, or the first `if` whose arms differ.
fn parts_of(alloc: Global, program: &Program) -> Result<Vec<Vec<Part>>, CommError>
    ensures cells { IfOk result (λ cells. (all_differing (plain program.now) ≡ [])
        × (all_unrolled cells.items ≡ map (λ (c : CellCode). block_communications c.body) (plain program.now).cells)) }
    ensures deep { IfOk result (λ cells. All (λ (parts : Vec Part). loops parts.items ≤ 16) cells.items) }
    ensures first { IfErr result (IsFirst (all_differing (plain program.now))) }
{
    let mut cells = Vec::new(alloc);
    for (index, cell) in program.cells().iter().enumerate() {
        cells.push(parts_of_cell(alloc, index as u16, cell.body.as_slice())?)?;
    }
    Ok(cells)
}

/// The parts of one cell, by its index and its body.
fn parts_of_cell(alloc: Global, cell: u16, body: &[TypedStmt]) -> Result<Vec<Part>, CommError>
    requires { IsShallow (block_of body.now) }
    ensures parts { IfOk result (λ parts. (differing (block_of body.now) ≡ [])
        × (unrolled parts.items ≡ block_communications (block_of body.now)) × (loops parts.items ≤ 16)) }
    ensures first { IfErr result (IsFirst (map (λ line. (cell, line)) (differing (block_of body.now)))) }
{
    let mut parts = Vec::new(alloc);
    match build(alloc, body, &mut parts) {
        Ok(()) => Ok(parts),
        Err(Stop::Differ(line)) => Err(CommError::ArmsDiffer { cell, line }),
        Err(Stop::Memory) => Err(CommError::Memory),
    }
}

/// The writes and reads of each cell.
fn trees_of(alloc: Global, cells: &[Vec<Part>]) -> Result<Items<Items<Part>>, AllocError>
    requires { All (λ (parts : Vec Part). loops parts.items ≤ 16) cells.now }
    ensures walked { IfOk result (All AreWalked) }
    ensures lists { IfOk result (λ trees. map unrolled trees ≡ map operations (all_unrolled cells.now)) }
{
    let mut trees = Items::new(alloc);
    for parts in cells {
        trees.push(Items::from_vec(operations_of(alloc, parts.as_slice())?))?;
    }
    Ok(trees)
}

/// How often a communication stands among those of each cell.
fn counts(alloc: Global, cells: &[Vec<Part>], entry: Entry) -> Result<Items<u32>, AllocError>
    requires { All (λ list. length list < 2 ^ 32) (all_unrolled cells.now) }
    ensures { IfOk result (λ counts. counts ≡ map (times (communication_of entry)) (all_unrolled cells.now)) }
{
    let mut counts = Items::new(alloc);
    for parts in cells {
        counts.push(count(parts.as_slice(), entry))?;
    }
    Ok(counts)
}

/// The number of writes of each message.
fn lengths_of(
    alloc: Global,
    trees: &[Items<Part>],
    messages: usize,
) -> Result<Items<u32>, AllocError>
    requires full { All (All IsFull) trees.now }
    requires messages { All (All (IsWritten messages)) (map unrolled trees.now) }
    requires few { sum_by length (map unrolled trees.now) < 2 ^ 32 }
    ensures { IfOk result (λ lengths.
        lengths ≡ map (λ m. sum_by (times (Writes m)) (map unrolled trees.now)) (below messages)) }
{
    let mut lengths = vec![in alloc; 0u32; messages]?;
    for parts in trees {
        add_writes(parts.as_slice(), 1, &mut lengths);
    }
    Ok(Items::from_vec(lengths))
}

/// The sender and the receiver of each message.
fn ends_of(alloc: Global, messages: &[Message]) -> Result<Vec<(u16, u16)>, AllocError>
    ensures { IfOk result (λ ends. ends.items ≡ map (λ (m : Message). (m.from, m.to)) messages.now) }
{
    messages
        .iter()
        .map(|message| (message.from, message.to))
        .collect(alloc)
}

impl Seqs {
    /// The sequences of cells that communicate what these parts do, with the sender and the receiver of each message.
    ///
    /// There are at most 256 cells and 512 messages, and fewer than 2^32 communications in all, with what is taken
    /// and emitted. At most 16 loops stand inside one another. Each message goes from one cell to another one; only its
    /// sender writes it, and only its receiver reads it. `Memory` may come for any cells.
    ///
    /// No loop is unrolled: time and memory are linear in the number of parts.
    pub fn of(alloc: Global, cells: Vec<Vec<Part>>, ends: Vec<(u16, u16)>) -> Result<Seqs, Memory>
        requires communications { AreCommunications (all_unrolled cells.items) ends.items }
        requires deep { All (λ (parts : Vec Part). loops parts.items ≤ 16) cells.items }
        ensures { IfOk result (λ s. s ≡ gathered (all_unrolled cells.items) ends.items) }
    {
        let takes = counts(alloc, cells.as_slice(), Entry::Take)?;
        let emits = counts(alloc, cells.as_slice(), Entry::Emit)?;
        let trees = trees_of(alloc, cells.as_slice())?;
        let lengths = lengths_of(alloc, trees.as_slice(), ends.len())?;
        let ends = Items::from_vec(ends);
        Ok(Seqs::new(trees, lengths, takes, emits, ends))
    }
}

/// What the cells of a program communicate (`docs/model.md`, "Lists"). The cost of all its cells has to be at most
/// 16,777,216 steps, as it is where `cost` gives it.
///
/// An error is the first `if` whose arms communicate differently, or `Memory`, which may come for any program. Of such
/// `if`s that stand in no loop of 0 turns the first one is, in the least cell that has one, the one whose last closing
/// brace stands first (E15 in `docs/refusals.md`, "Refusals").
///
/// No loop is unrolled, so the memory is linear in the program's statements. An `if` is compared once: a communication
/// is compared at most once for each `if` around it, and there are at most 16 of these. So the time is linear in the
/// cost of the program.
pub fn sequences(alloc: Global, program: &Program) -> Result<Seqs, CommError>
    requires cost { cells_cost (plain program.now) ≤ STEPS }
    ensures sequences { IfOk result (λ s. Alike (plain program.now) × (s ≡ sequences_of (plain program.now))) }
    ensures first { IfErr result (IsFirst (all_differing (plain program.now))) }
{
    few_communications();
    let cells = parts_of(alloc, program)?;
    let ends = ends_of(alloc, program.messages())?;
    Ok(Seqs::of(alloc, cells, ends)?)
}

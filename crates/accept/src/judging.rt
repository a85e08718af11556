//! A program without a refusal, or its first refusal.
ghost use Rattle.std.specs.Prelude.{◌≡◌, ◌<◌, ◌≤◌, List, length, IfOk, IfErr};
ghost use Rattle.cell_types.specs.Cost.{cells_cost};
ghost use Rattle.cell_types.specs.Groups.{lengths_of};
ghost use Rattle.cell_types.specs.Sound.{IsSound};
ghost use Rattle.cell_types.specs.Typed.{plain};
ghost use Rattle.comm_sequence.specs.Labels.{IsConsistent};
ghost use Rattle.comm_sequence.specs.Sequences.{sequences_of};
ghost use Rattle.comm_sequence.specs.declared.comm.Comm.{Comm};
ghost use Rattle.crossing_off.specs.Answer.{IsEmpty};
ghost use Rattle.queue_plan.specs.Grouping.{all_groups};
ghost use Rattle.refusals.specs.declared.refusal.Refusal.TheVariants as R;
ghost use Rattle.accept.specs.bodies.Answers.{IsFound};
ghost use Rattle.accept.specs.Built.{IsJudged};
ghost use Rattle.accept.specs.FirstRefusal.{IsFirstOf, IsStalled, PassesAll, cell_trials, label_trials, naming_trials, program_trials};
ghost use Rattle.accept.specs.Labelled.{AreLabels};
ghost use Rattle.accept.specs.declared.building.AcceptError.TheVariants as A;

use crate::bound::bound_of;
use crate::building::AcceptError;
use crate::labels::{labels_of, never_fall};
use crate::laws::laws_below;
use crate::queues::fitting_groups;
use crate::stalls::stall;
use cell_types::Program;
use comm_sequence::{Comm, Seqs, cost, sequences};
use crossing_off::{Crossed, cross};
use queue_plan::Groups;
use refusals::Refusal;
use std::alloc::Global;
use sys_base::{Items, MESSAGES, STEPS};

/// What the cells of a program do, where it has an order for its buffer.
#[derive(Drop)]
pub(crate) struct CellWork {
    /// The writes and reads of each cell.
    pub seqs: Seqs,
    /// The steps that all cells take.
    pub steps: u32,
    /// All writes and reads in the order in which they are crossed off.
    pub order: Items<Comm>,
}

/// A program without a refusal, and what its image is made of.
#[derive(Drop)]
pub struct Accepted {
    pub program: Program,
    pub seqs: Seqs,
    pub order: Items<Comm>,
    pub plan: Plan,
}

/// The labels of a program's messages, the groups of its links by them, and the bound on its steps.
#[derive(Drop)]
pub struct Plan {
    pub labels: Vec<u16>,
    pub groups: Groups,
    pub bound: u32,
}

/// A program without a refusal with what its image is made of, or its first refusal.
pub fn judged(alloc: Global, program: Program) -> Result<Accepted, AcceptError>
    ensures program { IfOk result (λ j. j.program ≡ program) }
    ensures passes { IfOk result (λ j. PassesAll program_trials (plain program)) }
    ensures judged { IfOk result (λ j. IsJudged (plain program) j.order j.plan.labels.items j.plan.bound) }
    ensures seqs { IfOk result (λ j. j.seqs ≡ sequences_of (plain program)) }
    ensures each { IfOk result (λ j. length j.plan.labels.items ≡ length program.messages) }
    ensures groups { IfOk result (λ j.
        j.plan.groups ≡ all_groups (plain program) j.plan.labels.items (lengths_of (plain program))) }
    ensures refused { IfErr result (IsFound (IsFirstOf program_trials) (plain program)) }
{
    let CellWork { seqs, steps, order } = ordered(alloc, &program)?;
    let plan = planned(alloc, &program, &seqs, steps)?;
    Ok(Accepted {
        program,
        seqs,
        order,
        plan,
    })
}

/// What the cells of a program do, or the first refusal of that.
pub fn ordered(alloc: Global, program: &Program) -> Result<CellWork, AcceptError>
    ensures seqs { IfOk result (λ o. o.seqs ≡ sequences_of (plain program.now)) }
    ensures steps { IfOk result (λ o. (o.steps ≡ cells_cost (plain program.now)) × (o.steps ≤ STEPS)) }
    ensures empty { IfOk result (λ o. IsEmpty (sequences_of (plain program.now)) program.now.buffer o.order) }
    ensures passes { IfOk result (λ _. PassesAll cell_trials (plain program.now)) }
    ensures refused { IfErr result (IsFound (IsFirstOf cell_trials) (plain program.now)) }
{
    prove!(program.messages().len() <= MESSAGES);
    laws_below();
    let Some(steps) = cost(program) else {
        return Err(AcceptError::Refused(Refusal::CellSteps));
    };
    let seqs = sequences(alloc, program)?;
    let order = crossing_order(alloc, program, &seqs)?;
    Ok(CellWork { seqs, steps, order })
}

/// The labels, the groups and the bound of a program whose cells take this number of steps, or the first refusal of its
/// labels, its queues and its bound.
fn planned(alloc: Global, program: &Program, seqs: &Seqs, steps: u32) -> Result<Plan, AcceptError>
    requires seqs { seqs.now ≡ sequences_of (plain program.now) }
    requires steps { steps ≡ cells_cost (plain program.now) }
    requires few { steps ≤ STEPS }
    ensures passes { IfOk result (λ _. PassesAll label_trials (plain program.now)) }
    ensures judged { IfOk result (λ r. (order : List Comm)
        → IsEmpty (sequences_of (plain program.now)) program.now.buffer order
        → IsJudged (plain program.now) order r.labels.items r.bound) }
    ensures each { IfOk result (λ r. length r.labels.items ≡ length program.now.messages) }
    ensures groups { IfOk result (λ r.
        r.groups ≡ all_groups (plain program.now) r.labels.items (lengths_of (plain program.now))) }
    ensures refused { IfErr result (IsFound (IsFirstOf label_trials) (plain program.now)) }
{
    laws_below();
    let labels = labelled(alloc, program, seqs)?;
    let groups = fitting_groups(alloc, program, seqs, &labels)?;
    let sum = bound_of(program, seqs, &groups, steps);
    let bound = limited(sum)?;
    Ok(Plan {
        labels,
        groups,
        bound,
    })
}

/// The labels of a program, which never fall, or their first refusal.
pub fn labelled(alloc: Global, program: &Program, seqs: &Seqs) -> Result<Vec<u16>, AcceptError>
    requires seqs { seqs.now ≡ sequences_of (plain program.now) }
    ensures labels { IfOk result (λ labels. AreLabels (plain program.now) labels.items) }
    ensures each { IfOk result (λ labels. length labels.items ≡ length program.now.messages) }
    ensures consistent { IfOk result
        (λ labels. IsConsistent (sequences_of (plain program.now)).lists labels.items) }
    ensures passes { IfOk result (λ _. PassesAll naming_trials (plain program.now)) }
    ensures refused { IfErr result (IsFound (IsFirstOf naming_trials) (plain program.now)) }
{
    laws_below();
    let labels = labels_of(alloc, program, seqs)?;
    never_fall(program, seqs, &labels)?;
    Ok(labels)
}

/// The order of the greedy rule for the program's buffer, or the refusal of a program that has no order for it.
fn crossing_order(alloc: Global, program: &Program, seqs: &Seqs) -> Result<Items<Comm>, AcceptError>
    requires sound { IsSound (plain program.now) }
    requires seqs { seqs.now ≡ sequences_of (plain program.now) }
    ensures empty { IfOk result (IsEmpty (sequences_of (plain program.now)) program.now.buffer) }
    ensures refused { IfErr result (IsFound IsStalled (plain program.now)) }
{
    match cross(alloc, seqs, program.buffer())? {
        Crossed::Empty(order) => Ok(Items::from_vec(order)),
        Crossed::Left(residue) => Err(AcceptError::Refused(stall(alloc, program, seqs, &residue)?)),
    }
}

/// A bound on steps, or the refusal of one above the limit.
fn limited(bound: u32) -> Result<u32, AcceptError>
    ensures within { IfOk result (λ n. (n ≡ bound) × (n ≤ STEPS)) }
    ensures refused { IfErr result (λ e. (STEPS < bound) × (e ≡ A.Refused (R.Bound bound))) }
{
    if bound > STEPS {
        Err(AcceptError::Refused(Refusal::Bound { bound }))
    } else {
        Ok(bound)
    }
}

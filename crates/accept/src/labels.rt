//! The labels of a program's messages, and their first fall.
ghost use Rattle.std.specs.Prelude.{◌≡◌, ℕ, List, length, map, Some, IfOk, IfErr, OnOk};
ghost use Rattle.cell_types.specs.Typed.{plain};
ghost use Rattle.cell_types.specs.declared.program.Message.{Message};
ghost use Rattle.comm_sequence.specs.Labels.{IsConsistent};
ghost use Rattle.comm_sequence.specs.Sequences.{sequences_of};
ghost use Rattle.labelling.specs.Falls.{IsFall};
ghost use Rattle.labelling.specs.declared.falls.Fall.{Fall};
ghost use Rattle.accept.specs.bodies.Answers.{IsFallOf, IsFound, IsUnlabelled};
ghost use Rattle.accept.specs.FirstRefusal.{HasFallingLabels, HasSomeLabels};
ghost use Rattle.accept.specs.Labelled.{AreLabels};
ghost use Rattle.accept.specs.Told.{fall_refusal};

use crate::building::AcceptError;
use cell_types::{Message, Program};
use comm_sequence::Seqs;
use labelling::{Fall, check, propose};
use refusals::Refusal;
use std::alloc::Global;
use sys_base::{CellName, Memory};

/// The labels of the messages: those of the source, or the proposed ones where it has none; or the refusal of a program
/// where only some messages have labels.
pub fn labels_of(alloc: Global, program: &Program, seqs: &Seqs) -> Result<Vec<u16>, AcceptError>
    requires seqs { seqs.now ≡ sequences_of (plain program.now) }
    ensures labels { IfOk result (λ labels. AreLabels (plain program.now) labels.items) }
    ensures each { IfOk result (λ labels. length labels.items ≡ length program.now.messages) }
    ensures refused { IfErr result (IsFound HasSomeLabels (plain program.now)) }
{
    let messages = program.messages();
    if messages.iter().any(|message| message.label.is_some()) {
        return given_labels(alloc, messages);
    }
    Ok(propose(alloc, seqs, messages.len() as u16)?)
}

/// The labels that the source gives to messages, or the refusal of the first one without a label.
fn given_labels(alloc: Global, messages: &[Message]) -> Result<Vec<u16>, AcceptError>
    ensures labels { IfOk result (λ labels. map (λ (m : Message). m.label) messages.now ≡ map Some labels.items) }
    ensures refused { IfErr result (IsUnlabelled messages.now) }
{
    let mut labels = Vec::new(alloc);
    for message in messages {
        let Some(label) = message.label else {
            let name = message.name.copy()?;
            return Err(AcceptError::Refused(Refusal::SomeLabels { name }));
        };
        labels.push(label)?;
    }
    Ok(labels)
}

/// Nothing where no label falls, or the refusal of the first fall.
pub fn never_fall(program: &Program, seqs: &Seqs, labels: &[u16]) -> Result<(), AcceptError>
    requires seqs { seqs.now ≡ sequences_of (plain program.now) }
    requires labels { AreLabels (plain program.now) labels.now }
    requires each { length labels.now ≡ length program.now.messages }
    ensures consistent { OnOk result (IsConsistent (sequences_of (plain program.now)).lists labels.now) }
    ensures refused { IfErr result (IsFound HasFallingLabels (plain program.now)) }
{
    falls_inside(program, seqs);
    match check(seqs, labels) {
        None => Ok(()),
        Some(fall) => Err(AcceptError::Refused(fall_refusal(program, labels, fall)?)),
    }
}

/// A law: labels fall only at cells of the grid, between two of the program's messages.
fn falls_inside(program: &Program, seqs: &Seqs)
    requires { seqs.now ≡ sequences_of (plain program.now) }
    ensures { (labels : List ℕ) (fall : Fall)
        → IsFall (sequences_of (plain program.now)).lists labels fall → IsFallOf (plain program.now) fall }
{
    prove!(program.messages().len() == usize::from(seqs.messages()));
}

/// The refusal of a fall.
fn fall_refusal(program: &Program, labels: &[u16], fall: Fall) -> Result<Refusal, Memory>
    requires fall { IsFallOf (plain program.now) fall }
    requires each { length labels.now ≡ length program.now.messages }
    ensures { IfOk result (λ r. r ≡ fall_refusal (plain program.now) labels.now fall) }
{
    let messages = program.messages();
    let CellName { row, col } = program.grid().cell_name(fall.cell);
    Ok(Refusal::Fall {
        row,
        col,
        at: fall.at,
        before: messages[usize::from(fall.before)].name.copy()?,
        first: labels[usize::from(fall.before)],
        after: messages[usize::from(fall.after)].name.copy()?,
        second: labels[usize::from(fall.after)],
    })
}

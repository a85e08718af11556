//! How messages are grouped.
ghost use Rattle.std.specs.Prelude.{◌≡◌, ◌≢◌, ◌<◌, ◌≤◌, length, map, take, slice_index, All, IfOk};
ghost use Rattle.std.specs.List.Sorted.{IsNonDecreasingBy};
ghost use Rattle.sys_base.specs.declared.limits.TheConstants.{MESSAGES};
ghost use Rattle.cell_types.specs.Groups.{below};
ghost use Rattle.cell_types.specs.Typed.{plain};
ghost use Rattle.queue_plan.specs.Grouping.{all_groups, IsGroups};
ghost use Rattle.queue_plan.specs.bodies.ByLabel.{grouped, IsByLabel};

use crate::groups::Groups;
use crate::label_group::Group;
use crate::users::users_of;
use cell_types::Program;
use std::alloc::{AllocError, Global};
use sys_base::{Items, MESSAGES, Memory};

/// The groups of each link of a program (`docs/model.md`, "Groups and queues"): the messages of one label and of
/// length at least 1 whose routes use the link.
///
/// `labels` and `lengths` have the label and the length of each message, at the message's index; a length is in words.
/// The id of a link is below four times the number of the program's cells. The only error is want of memory, which may
/// come for any arguments.
///
/// The time is linear in the number of links and the total length of the routes, but for a logarithm of the number of
/// messages.
pub fn group(
    alloc: Global,
    program: &Program,
    labels: &[u16],
    lengths: &[u32],
) -> Result<Groups, Memory>
    requires labels { length labels.now ≡ length program.now.messages }
    requires lengths { length lengths.now ≡ length program.now.messages }
    ensures groups { IfOk result (λ groups. groups ≡ all_groups (plain program.now) labels.now lengths.now) }
    ensures links { IfOk result (λ groups. length groups ≡ length program.now.queues) }
    ensures kept { IfOk result IsGroups }
{
    prove!(program.messages().len() <= MESSAGES);
    let order = by_label(alloc, labels)?;
    let users = users_of(alloc, program, lengths, &order)?;
    let mut links = Items::new(alloc);
    for messages in &users {
        links.push(groups_of(alloc, messages.as_slice(), labels)?)?;
    }
    Ok(Groups::new(links))
}

/// All messages, in rising order of label, and of index where labels are equal.
fn by_label(alloc: Global, labels: &[u16]) -> Result<Vec<u16>, Memory>
    requires { length labels.now ≤ MESSAGES }
    ensures { IfOk result (λ order. IsByLabel labels.now order.items) }
{
    let mut pairs = pairs_of(alloc, labels)?;
    pairs.sort_by_key(|(label, _)| *label)?;
    Ok(messages_of(alloc, &pairs)?)
}

/// Each message after its label.
fn pairs_of(alloc: Global, labels: &[u16]) -> Result<Vec<(u16, u16)>, AllocError>
    requires { length labels.now ≤ MESSAGES }
    ensures { IfOk result (λ pairs. pairs.items
        ≡ map (λ message. (slice_index labels.now message, message)) (below (length labels.now))) }
{
    let mut pairs = Vec::new(alloc);
    for (message, label) in labels.iter().enumerate() {
        pairs.push((*label, message as u16))?;
    }
    Ok(pairs)
}

/// The messages that stand after labels.
fn messages_of(alloc: Global, pairs: &[(u16, u16)]) -> Result<Vec<u16>, AllocError>
    ensures { IfOk result (λ messages. messages.items ≡ map (λ pair. pair.1) pairs.now) }
{
    pairs.iter().map(|(_, message)| *message).collect(alloc)
}

/// The groups of messages that stand in rising order of label.
fn groups_of(alloc: Global, messages: &[u16], labels: &[u16]) -> Result<Items<Group>, AllocError>
    requires known { All (λ message. message < length labels.now) messages.now }
    requires rising { IsNonDecreasingBy (slice_index labels.now) messages.now }
    ensures { IfOk result (λ groups. groups ≡ grouped labels.now messages.now) }
{
    let mut groups = Items::new(alloc);
    let mut rest = messages;
    while let Some(first) = rest.first() {
        let label = labels[usize::from(*first)];
        let (members, later) = rest.split_at(run_length(rest, labels, label));
        groups.push(Group::new(label, Items::from_slice(alloc, members)?))?;
        rest = later;
    }
    Ok(groups)
}

/// How many messages have the label before the first one that has another.
fn run_length(messages: &[u16], labels: &[u16], label: u16) -> usize
    requires { All (λ message. message < length labels.now) messages.now }
    ensures within { result ≤ length messages.now }
    ensures same { All (λ message. slice_index labels.now message ≡ label) (take result messages.now) }
    ensures other { result < length messages.now → slice_index labels.now (slice_index messages.now result) ≢ label }
{
    for (place, message) in messages.iter().enumerate() {
        if labels[usize::from(*message)] != label {
            return place;
        }
    }
    messages.len()
}

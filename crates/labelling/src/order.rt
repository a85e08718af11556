//! Which messages must come no later than which.
ghost use Rattle.std.specs.Prelude.{◌≡◌, ℕ, ◌<◌, ◌≤◌, ◌↔◌, ◌&&◌, ◌||◌, IsTrue, nat_eq, length, All, IfOk};
ghost use Rattle.std.specs.List.{list_any};
ghost use Rattle.sys_base.specs.declared.limits.TheConstants.{MESSAGES};
ghost use Rattle.comm_sequence.specs.Labels.{IsTable};
ghost use Rattle.comm_sequence.specs.Sequences.{message_of, IsSequences};
ghost use Rattle.labelling.specs.bodies.Sets.{is_before, stand_next, Through};

use crate::sets::MessageSet;
use comm_sequence::{Cursor, Seqs};
use std::alloc::Global;
use sys_base::Memory;

/// For each message the set of those that must come no later than it.
pub(crate) fn order_of(alloc: Global, seqs: &Seqs, count: u16) -> Result<Vec<MessageSet>, Memory>
    requires { count ≡ length seqs.now.ends }
    ensures few { count ≤ MESSAGES }
    ensures len { IfOk result (λ sets. length sets.items ≡ count) }
    ensures order { IfOk result (λ sets. IsTable seqs.now.lists (length seqs.now.ends) (is_before sets.items)) }
{
    let mut sets = neighbours(alloc, seqs, count)?;
    close(&mut sets);
    Ok(sets)
}

/// For each message the set of itself and those that stand just before it in some cell's list.
fn neighbours(alloc: Global, seqs: &Seqs, count: u16) -> Result<Vec<MessageSet>, Memory>
    requires { count ≡ length seqs.now.ends }
    ensures len { IfOk result (λ sets. length sets.items ≡ length seqs.now.ends) }
    ensures sets { IfOk result (λ sets. (a b : ℕ) → b < length seqs.now.ends
        → is_before sets.items a b ≡ (nat_eq a b || list_any (λ list. stand_next list a b) seqs.now.lists)) }
    ensures kept { IsSequences seqs.now }
{
    let cells = seqs.cells();
    let mut sets = alone(alloc, count)?;
    for cell in 0..cells {
        add_neighbours(&mut sets, seqs.cursor(cell));
    }
    Ok(sets)
}

/// For each message the set of itself.
fn alone(alloc: Global, count: u16) -> Result<Vec<MessageSet>, Memory>
    requires { count ≤ MESSAGES }
    ensures len { IfOk result (λ sets. length sets.items ≡ count) }
    ensures sets { IfOk result (λ sets. (a b : ℕ) → b < count → is_before sets.items a b ≡ nat_eq a b) }
{
    let mut sets = Vec::with_capacity(alloc, usize::from(count))?;
    for message in 0..count {
        sets.push(MessageSet::of(message))?;
    }
    Ok(sets)
}

/// Puts into the set of each message those that stand just before it in the list.
fn add_neighbours(sets: &mut [MessageSet], mut list: Cursor<'_>)
    requires messages { All (λ comm. message_of comm < length sets.old) list }
    requires few { length sets.old ≤ MESSAGES }
    ensures { (a b : ℕ) → b < length sets.old
        → is_before sets.new a b ≡ (is_before sets.old a b || stand_next list.entry a b) }
{
    let Some(first) = list.next() else {
        return;
    };
    let mut before = first.message();
    while let Some(operation) = list.next() {
        let after = operation.message();
        sets[usize::from(after)].insert(before);
        before = after;
    }
}

/// Puts into the set of each message those from which a chain leads to it.
pub(crate) fn close(sets: &mut [MessageSet])
    requires { length sets.old ≤ MESSAGES }
    ensures { (a b : ℕ) → (IsTrue (is_before sets.new a b) ↔ Through (is_before sets.old) (length sets.old) a b) }
{
    for between in 0..sets.len() as u16 {
        join_through(sets, between);
    }
}

/// Where a message comes before another one, puts its set into that of the other.
fn join_through(sets: &mut [MessageSet], between: u16)
    requires few { length sets.old ≤ MESSAGES }
    requires there { between < length sets.old }
    ensures { (a b : ℕ) → is_before sets.new a b
        ≡ (is_before sets.old a b || (is_before sets.old a between && is_before sets.old between b)) }
{
    let earlier = sets[usize::from(between)];
    for set in sets {
        if set.has(between) {
            set.add_all(&earlier);
        }
    }
}

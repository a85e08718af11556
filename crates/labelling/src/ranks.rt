//! Keys of messages, and the labels that they give.
ghost use Rattle.std.specs.Prelude.{◌≡◌, ℕ, ◌<◌, ◌≤◌, ◌&&◌, List, length, map, find, unwrap_or, count_by, IfOk};
ghost use Rattle.sys_base.specs.declared.limits.TheConstants.{MESSAGES};
ghost use Rattle.cell_types.specs.Groups.{below};
ghost use Rattle.comm_sequence.specs.Labels.{different, is_below, key, IsProposal};
ghost use Rattle.comm_sequence.specs.declared.comm.Comm.{Comm};
ghost use Rattle.labelling.specs.bodies.Ranks.{key_of, AreKeys};
ghost use Rattle.labelling.specs.bodies.Sets.{is_before};

use crate::sets::MessageSet;
use std::alloc::Global;
use sys_base::Memory;

/// How many messages must come no later than a message, and the least one that must come no later than it and no
/// earlier.
#[derive(Clone, Copy)]
pub(crate) struct MessageKey {
    earlier: u16,
    least: u16,
}

impl MessageKey {
    /// The key of a message, by the set of those that must come no later than each.
    fn of(sets: &[MessageSet], message: u16) -> MessageKey
        requires few { length sets.now ≤ MESSAGES }
        requires there { message < length sets.now }
        ensures { key_of result ≡ key (is_before sets.now) (length sets.now) message }
    {
        MessageKey {
            earlier: earlier_than(sets, message),
            least: least_with(sets, message),
        }
    }

    /// Whether it is below another key.
    fn is_below(&self, other: &MessageKey) -> bool
        ensures { result ≡ is_below (key_of self.now) (key_of other.now) }
    {
        self.earlier < other.earlier || (self.earlier == other.earlier && self.least < other.least)
    }
}

/// Whether the first message must come no later than the second.
fn comes_before(sets: &[MessageSet], first: u16, second: u16) -> bool
    requires few { first < MESSAGES }
    requires there { second < length sets.now }
    ensures { result ≡ is_before sets.now first second }
{
    sets[usize::from(second)].has(first)
}

/// How many messages must come no later than this one.
fn earlier_than(sets: &[MessageSet], message: u16) -> u16
    requires few { length sets.now ≤ MESSAGES }
    requires there { message < length sets.now }
    ensures { result ≡ count_by (λ a. is_before sets.now a message) (below (length sets.now)) }
{
    let mut earlier = 0;
    for other in 0..sets.len() as u16 {
        if comes_before(sets, other, message) {
            earlier += 1;
        }
    }
    earlier
}

/// The least message that must come no later than this one and no earlier.
fn least_with(sets: &[MessageSet], message: u16) -> u16
    requires few { length sets.now ≤ MESSAGES }
    requires there { message < length sets.now }
    ensures { result ≡ unwrap_or
        (find (λ a. is_before sets.now a message && is_before sets.now message a) (below (length sets.now))) message }
{
    for other in 0..sets.len() as u16 {
        if comes_before(sets, other, message) && comes_before(sets, message, other) {
            return other;
        }
    }
    message
}

/// The key of each message.
pub(crate) fn keys_of(alloc: Global, sets: &[MessageSet]) -> Result<Vec<MessageKey>, Memory>
    requires { length sets.now ≤ MESSAGES }
    ensures len { IfOk result (λ keys. length keys.items ≡ length sets.now) }
    ensures keys { IfOk result (λ keys. map key_of keys.items
        ≡ map (key (is_before sets.now) (length sets.now)) (below (length sets.now))) }
{
    let mut keys = Vec::with_capacity(alloc, sets.len())?;
    for message in 0..sets.len() as u16 {
        keys.push(MessageKey::of(sets, message))?;
    }
    Ok(keys)
}

/// The different keys, each as that of the least message that has it.
fn different_keys(alloc: Global, keys: &[MessageKey]) -> Result<Vec<MessageKey>, Memory>
    ensures few { IfOk result (λ found. length found.items ≤ length keys.now) }
    ensures different { IfOk result (λ found. (lists : List (List Comm)) → AreKeys lists (length keys.now) keys.now
        → map key_of found.items ≡ different (map key_of keys.now)) }
{
    let mut different = Vec::new(alloc);
    for (message, key) in keys.iter().enumerate() {
        if usize::from(key.least) == message {
            different.push(*key)?;
        }
    }
    Ok(different)
}

/// How many keys are below this one.
fn rank(keys: &[MessageKey], key: &MessageKey) -> u16
    requires { length keys.now ≤ MESSAGES }
    ensures { result ≡ count_by (λ k. is_below (key_of k) (key_of key.now)) keys.now }
{
    keys.iter().filter(|other| other.is_below(key)).count() as u16
}

/// For each message the number of different keys below its own.
pub(crate) fn ranks(alloc: Global, keys: &[MessageKey]) -> Result<Vec<u16>, Memory>
    requires { length keys.now ≤ MESSAGES }
    ensures { IfOk result (λ labels. (lists : List (List Comm)) → AreKeys lists (length keys.now) keys.now
        → IsProposal lists (length keys.now) labels.items) }
{
    let different = different_keys(alloc, keys)?;
    let mut labels = Vec::with_capacity(alloc, keys.len())?;
    for key in keys {
        labels.push(rank(&different, key))?;
    }
    Ok(labels)
}

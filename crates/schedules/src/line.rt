//! One line of a schedule.
ghost use Rattle.std.specs.Prelude.{◌≡◌, ◌∷◌, ◌↔◌, ℕ, ◌^◌, ◌<◌, IsTrue, decimal, length, slice_index, IfSome, IfNone};
ghost use Rattle.schedules.specs.Entries.{IsMalformed, IsShort};
ghost use Rattle.schedules.specs.Bytes.{BeginsPlainly, IsFirstByte};
ghost use Rattle.sys_base.specs.Actors.{actor_text};
ghost use Rattle.sys_base.specs.declared.actor.Actor.TheVariants.{Forward};

use std::str;
use sys_base::Actor;

/// The entry on a line; `None` exactly where the line is malformed.
pub(crate) fn entry_of(line: &[u8]) -> Option<Actor>
    ensures text { IfSome result (λ entry. line.now ≡ actor_text entry) }
    ensures short { IfSome result IsShort }
    ensures none { IfNone result (IsMalformed line.now) }
{
    match line {
        [b'c', number @ ..] => Some(Actor::Cell(number_of(number)?)),
        [b'f', numbers @ ..] => forward_of(numbers),
        [b'b', number @ ..] => Some(Actor::Bind(number_of(number)?)),
        _ => None,
    }
}

/// The forward with these numbers, a message and a hop with a dot between them.
fn forward_of(numbers: &[u8]) -> Option<Actor>
    ensures text { IfSome result (λ entry. 102 ∷ numbers.now ≡ actor_text entry) }
    ensures short { IfSome result IsShort }
    ensures none { IfNone result ((message hop : ℕ) → message < 2 ^ 16 → hop < 2 ^ 16
        → 102 ∷ numbers.now ≡ actor_text (Forward message hop) → ⊥) }
{
    let dot = place_of(b'.', numbers)?;
    let message = number_of(&numbers[..dot])?;
    let hop = number_of(&numbers[dot + 1..])?;
    Some(Actor::Forward(message, hop))
}

/// The number of at most 65535 that a decimal spells; `None` where it spells none.
fn number_of(digits: &[u8]) -> Option<u16>
    ensures text { IfSome result (λ n. digits.now ≡ decimal n) }
    ensures none { IfNone result ((n : ℕ) → n < 2 ^ 16 → digits.now ≡ decimal n → ⊥) }
{
    u16::try_from(plain_number(digits)?).ok()
}

/// The number that a decimal spells; `None` where it spells none of 64 bits, has a sign, or begins with a 0 too many.
/// Schedules and the words of a command line spell their numbers so.
pub fn plain_number(digits: &[u8]) -> Option<u64>
    ensures text { IfSome result (λ n. digits.now ≡ decimal n) }
    ensures none { IfNone result ((n : ℕ) → n < 2 ^ 64 → digits.now ≡ decimal n → ⊥) }
{
    if !begins_plainly(digits) {
        return None;
    }
    match str::from_utf8(digits) {
        Ok(text) => text.parse().ok(),
        Err(_) => None,
    }
}

/// Whether the first byte is a digit, and no 0 stands before another byte.
fn begins_plainly(digits: &[u8]) -> bool
    ensures { IsTrue result ↔ BeginsPlainly digits.now }
{
    match digits {
        [b'0', rest @ ..] => rest.is_empty(),
        [b'1'..=b'9', ..] => true,
        _ => false,
    }
}

/// The place of the first such byte; `None` where there is none.
pub(crate) fn place_of(byte: u8, bytes: &[u8]) -> Option<usize>
    ensures here { IfSome result (λ place. IsFirstByte bytes.now place byte) }
    ensures none { IfNone result ((k : ℕ) → k < length bytes.now → slice_index bytes.now k ≡ byte → ⊥) }
{
    bytes.iter().position(|other| *other == byte)
}

//! A set of messages, as bits.
ghost use Rattle.std.specs.Prelude.{◌<◌, ◌≡◌, ℕ, [], MatchOption};
ghost use Rattle.crossing_off.specs.bodies.WaitingSet.{AddsTo, IsIn, IsLeast, IsUsedUp, Removes, TakesLeast};

use std::marker::Model;
use sys_base::MESSAGES;

/// How many bits a word has.
const BITS: usize = 64;

/// How many words have a bit for each message.
const WORDS: usize = MESSAGES / BITS;

/// Some messages, by their indexes: bit `m % 64` of word `m / 64` says whether message `m` is one of them.
#[derive(Drop)]
pub(crate) struct WaitingSet {
    words: [u64; WORDS],
}

impl Model for WaitingSet {
    ghost use Rattle.std.specs.Prelude.{ℕ, List};
    ghost use Rattle.crossing_off.specs.bodies.WaitingSet.{members};

    ghost Value = { List ℕ };

    ghost view = { λ set. members set.words };
}

impl WaitingSet {
    /// No message.
    pub(crate) fn new() -> WaitingSet
        ensures { result ≡ [] }
    {
        WaitingSet { words: [0; WORDS] }
    }

    /// Adds a message.
    pub(crate) fn insert(&mut self, message: u16)
        requires { message < MESSAGES }
        ensures { AddsTo self.old self.new message }
    {
        let index = usize::from(message);
        self.words[index / BITS] |= 1 << (index % BITS);
    }

    /// Takes the least message out.
    pub(crate) fn take_least(&mut self) -> Option<u16>
        ensures { MatchOption result (IsUsedUp self.old self.new) (TakesLeast self.old self.new) }
    {
        match self.first() {
            Some(message) => {
                self.remove(message);
                Some(message)
            }
            None => None,
        }
    }

    /// The least message.
    fn first(&self) -> Option<u16>
        ensures { MatchOption result ((message : ℕ) → IsIn self.now message → ⊥) (IsLeast self.now) }
    {
        for index in 0..WORDS {
            let word = self.words[index];
            if word != 0 {
                return Some((index * BITS) as u16 + word.trailing_zeros() as u16);
            }
        }
        None
    }

    /// Takes a message out.
    fn remove(&mut self, message: u16)
        requires { IsIn self.old message }
        ensures { Removes self.old self.new message }
    {
        let index = usize::from(message);
        self.words[index / BITS] &= !(1 << (index % BITS));
    }
}

//! Sets of messages.
ghost use Rattle.std.specs.Prelude.{◌≡◌, ℕ, ◌<◌, ◌||◌, false, nat_eq};
ghost use Rattle.sys_base.specs.declared.limits.TheConstants.{MESSAGES};
ghost use Rattle.labelling.specs.bodies.Sets.{has};

/// A set of messages: a bit for each of the 512 that there may be, 64 to a word.
#[derive(Clone, Copy)]
pub(crate) struct MessageSet {
    words: [u64; 8],
}

impl MessageSet {
    /// The set of one message.
    pub(crate) fn of(message: u16) -> MessageSet
        requires { message < MESSAGES }
        ensures { (m : ℕ) → has result.words m ≡ nat_eq m message }
    {
        let mut set = MessageSet { words: [0; 8] };
        set.insert(message);
        set
    }

    /// Whether the message is in the set.
    pub(crate) fn has(&self, message: u16) -> bool
        requires { message < MESSAGES }
        ensures { result ≡ has self.now.words message }
    {
        (self.words[usize::from(message / 64)] >> (message % 64)) & 1 == 1
    }

    /// Puts the message into the set.
    pub(crate) fn insert(&mut self, message: u16)
        requires { message < MESSAGES }
        ensures { (m : ℕ) → has self.new.words m ≡ (nat_eq m message || has self.old.words m) }
    {
        self.words[usize::from(message / 64)] |= 1 << (message % 64);
    }

    /// Puts all messages of another set into this one.
    pub(crate) fn add_all(&mut self, other: &MessageSet)
        ensures { (m : ℕ) → has self.new.words m ≡ (has self.old.words m || has other.now.words m) }
    {
        for index in 0..8 {
            self.words[index] |= other.words[index];
        }
    }
}

ghost use Rattle.std.specs.Prelude.{◌≡◌, ℕ, Bool, true, false, Option, MatchOption};
ghost use Rattle.sys_base.specs.declared.word.Word.{Word as WordOfMessage};

use sys_base::Word;

/// A cell's side of its messages: where its writes go, and where its reads come from.
///
/// `room` says whether a message can take a word, and `first` which word of a message comes next, if there is one.
/// For a number that is no message there is neither. `wrote` says what a write leaves, and `gave` what a read leaves:
/// each is over the port before, the message, the word and the port after. A call that refuses leaves the port as it
/// was.
pub trait Port {
    ghost room: { Self → ℕ → Bool };

    ghost first: { Self → ℕ → Option WordOfMessage };

    ghost wrote: { Self → ℕ → WordOfMessage → Self → Type 0 };

    ghost gave: { Self → ℕ → WordOfMessage → Self → Type 0 };

    /// Writes a word to a message, if it has room: whether it had.
    fn write(&mut self, message: u16, word: Word) -> bool
        ensures room { result ≡ room self.old message }
        ensures written { result ≡ true → wrote self.old message word self.new }
        ensures refused { result ≡ false → self.new ≡ self.old };

    /// Reads the next word of a message, if there is one.
    fn read(&mut self, message: u16) -> Option<Word>
        ensures first { result ≡ first self.old message }
        ensures given { MatchOption result (self.new ≡ self.old) (λ word. gave self.old message word self.new) };
}

ghost use Rattle.std.specs.Prelude.{◌≡◌, ◌<◌, ◌++◌, ◌∷◌, [], ◌+◌, nat_lt, slice_get};
ghost use Rattle.std.specs.Vec.{vec_len, vec_capacity};

use cell_machine::Port;
use sys_base::Word;

/// A port that keeps the words written to it, as long as it has room, and that brings some words in order, whatever
/// the message.
#[derive(Debug, Drop)]
pub struct Line {
    pub written: Vec<(u16, Word)>,
    pub words: Vec<Word>,
    pub next: usize,
}

impl Port for Line {
    ghost room = { λ p _. nat_lt (vec_len p.written) (vec_capacity p.written) };

    ghost first = { λ p _. slice_get p.words.items p.next };

    ghost wrote = { λ p message word q. q.written.items ≡ p.written.items ++ (message, word) ∷ [] };

    ghost gave = { λ p _ _ q. q ≡ record p { next = p.next + 1 } };

    fn write(&mut self, message: u16, word: Word) -> bool {
        if self.written.len() >= self.written.capacity() {
            return false;
        }
        let _ = self.written.push((message, word));
        true
    }

    fn read(&mut self, _message: u16) -> Option<Word> {
        match self.words.get(self.next) {
            None => None,
            Some(word) => {
                let word = *word;
                self.next += 1;
                Some(word)
            }
        }
    }
}

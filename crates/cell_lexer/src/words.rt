ghost use Rattle.std.specs.Prelude.{◌≡◌, ℕ, ◌<◌, ◌≤◌, false, length, take, IsTrue, slice_index, IfOk, IfErr};
ghost use Rattle.sys_base.specs.Bytes.{is_letter, is_word_byte};
ghost use Rattle.cell_lexer.specs.Forms.{Longest, Says};
ghost use Rattle.cell_lexer.specs.Inner.Scanning.{IsFlaw};

use crate::flaw::Flaw;
use crate::token::Sort;
use sys_base::bytes::is_word_byte;
use sys_base::{Key, NAME_BYTES};

/// The name or the keyword at the front of bytes that begin with a letter, and its length.
pub(crate) fn name_at(rest: &[u8]) -> Result<(Sort, usize), Flaw>
    requires { IsTrue (is_letter (slice_index rest.now 0)) }
    ensures longest { IfOk result (λ found. Longest rest.now found.1) }
    ensures says { IfOk result (λ found. Says (take found.1 rest.now) found.0) }
    ensures flaw { IfErr result (λ flaw. IsFlaw rest.now flaw) }
{
    let len = word_len(rest);
    if len > NAME_BYTES {
        return Err(Flaw::Long);
    }
    match Key::from_word(&rest[..len]) {
        Some(key) => Ok((Sort::Key(key), len)),
        None => Ok((Sort::Name, len)),
    }
}

/// How many bytes at the front may stand inside a word.
fn word_len(rest: &[u8]) -> usize
    ensures inside { result ≤ length rest.now }
    ensures each { (k : ℕ) → k < result → IsTrue (is_word_byte (slice_index rest.now k)) }
    ensures stop { result < length rest.now → is_word_byte (slice_index rest.now result) ≡ false }
{
    for (len, byte) in rest.iter().enumerate() {
        if !is_word_byte(*byte) {
            return len;
        }
    }
    rest.len()
}

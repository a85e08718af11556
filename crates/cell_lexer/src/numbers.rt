ghost use Rattle.std.specs.Prelude.{◌≡◌, ℕ, ◌<◌, ◌≤◌, false, length, take, IsTrue, slice_index, EachIndex, IfSome, IfNone, IfOk, IfErr};
ghost use Rattle.sys_base.specs.Bytes.{is_digit};
ghost use Rattle.cell_lexer.specs.Forms.{Longest, Says, value, greatest};
ghost use Rattle.cell_lexer.specs.Inner.Scanning.{IsFlaw};

use crate::flaw::Flaw;
use crate::limits::GREATEST_NUMBER;
use crate::token::Sort;
use sys_base::bytes::is_digit;

/// The number at the front of bytes that begin with a digit, and its length.
pub(crate) fn number_at(rest: &[u8]) -> Result<(Sort, usize), Flaw>
    requires { IsTrue (is_digit (slice_index rest.now 0)) }
    ensures longest { IfOk result (λ found. Longest rest.now found.1) }
    ensures says { IfOk result (λ found. Says (take found.1 rest.now) found.0) }
    ensures flaw { IfErr result (λ flaw. IsFlaw rest.now flaw) }
{
    let len = digits_len(rest);
    match number(&rest[..len]) {
        Some(n) => Ok((Sort::Number(n), len)),
        None => Err(Flaw::Big),
    }
}

/// How many bytes at the front are digits.
fn digits_len(rest: &[u8]) -> usize
    ensures inside { result ≤ length rest.now }
    ensures each { (k : ℕ) → k < result → IsTrue (is_digit (slice_index rest.now k)) }
    ensures stop { result < length rest.now → is_digit (slice_index rest.now result) ≡ false }
{
    for (len, byte) in rest.iter().enumerate() {
        if !is_digit(*byte) {
            return len;
        }
    }
    rest.len()
}

/// The number that digits spell; `None` exactly where it is above the greatest.
fn number(digits: &[u8]) -> Option<u64>
    requires { EachIndex digits.now (λ k. IsTrue (is_digit (slice_index digits.now k))) }
    ensures value { IfSome result (λ n. (value digits.now ≡ n) × (n ≤ greatest)) }
    ensures big { IfNone result (greatest < value digits.now) }
{
    let mut n = 0;
    for byte in digits {
        let digit = u64::from(*byte - b'0');
        if n > (GREATEST_NUMBER - digit) / 10 {
            return None;
        }
        n = 10 * n + digit;
    }
    Some(n)
}

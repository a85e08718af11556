//! The arithmetic of words (`specs/Words.antt`; `docs/model.md`, "Words and faults").
ghost use Rattle.std.specs.Prelude.{◌≡◌};
ghost use Rattle.std.specs.Option.{option_map_or};
ghost use Rattle.sys_base.specs.Words.{applied, negated, number_applied, fault_at, truth};
ghost use Rattle.sys_base.specs.declared.kinds.Kind.TheVariants.{O};
ghost use Rattle.sys_base.specs.declared.word.Word.TheVariants.{Num};

use crate::kinds::{Kind, Op};
use crate::word::{Fault, Word};

/// What an operator gives for two words in a cell, in a statement that begins on this line. A fault is passed on, the
/// left one first. Z comes where a divisor is zero, O where the exact result is outside 64 bits or a remainder is that
/// of `i64::MIN` by -1.
pub fn apply(op: Op, a: Word, b: Word, cell: u16, line: u32) -> Word
    ensures { result ≡ applied op a b cell line }
{
    match (a, b) {
        (Word::Fault(fault), _) => Word::Fault(fault),
        (Word::Num(_), Word::Fault(fault)) => Word::Fault(fault),
        (Word::Num(a), Word::Num(b)) => apply_numbers(op, a, b, cell, line),
    }
}

/// The word with the other sign, in a cell, in a statement that begins on this line. A fault is passed on. O comes for
/// `i64::MIN`.
pub fn negate(a: Word, cell: u16, line: u32) -> Word
    ensures { result ≡ negated a cell line }
{
    match a {
        Word::Fault(fault) => Word::Fault(fault),
        Word::Num(a) => number_or_fault(a.checked_neg(), cell, line),
    }
}

fn apply_numbers(op: Op, a: i64, b: i64, cell: u16, line: u32) -> Word
    ensures { result ≡ number_applied op a b cell line }
{
    match op {
        Op::Add => number_or_fault(a.checked_add(b), cell, line),
        Op::Sub => number_or_fault(a.checked_sub(b), cell, line),
        Op::Mul => number_or_fault(a.checked_mul(b), cell, line),
        Op::Div | Op::Rem if b == 0 => fault(Kind::Z, cell, line),
        Op::Div => number_or_fault(a.checked_div(b), cell, line),
        Op::Rem => number_or_fault(a.checked_rem(b), cell, line),
        Op::Less => truth(a < b),
        Op::AtMost => truth(a <= b),
        Op::Same => truth(a == b),
        Op::Differ => truth(a != b),
    }
}

/// The number, or the fault O where there is none.
fn number_or_fault(number: Option<i64>, cell: u16, line: u32) -> Word
    ensures { result ≡ option_map_or Num number (fault_at O cell line) }
{
    match number {
        Some(number) => Word::Num(number),
        None => fault(Kind::O, cell, line),
    }
}

fn fault(kind: Kind, cell: u16, line: u32) -> Word
    ensures { result ≡ fault_at kind cell line }
{
    Word::Fault(Fault { kind, cell, line })
}

fn truth(test: bool) -> Word
    ensures { result ≡ truth test }
{
    Word::Num(if test { 1 } else { 0 })
}

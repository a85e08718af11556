ghost use Rattle.std.specs.Prelude.{◌≡◌, ◌<◌, [], ◌∷◌, false, length, take, slice_index, IfSome, IfNone, IfOk, IfErr};
ghost use Rattle.sys_base.specs.Bytes.{is_letter, is_digit};
ghost use Rattle.cell_lexer.specs.declared.token.Mark.{Mark};
ghost use Rattle.cell_lexer.specs.Forms.{Longest, Says, mark_text};
ghost use Rattle.cell_lexer.specs.Inner.Scanning.{IsFlaw, IsSolid};

use crate::flaw::Flaw;
use crate::token::{Mark, Sort};

impl Mark {
    /// How the mark is spelt.
    pub fn text(self) -> &'static [u8]
        ensures { result.now ≡ mark_text self }
    {
        match self {
            Mark::OpenBrace => b"{",
            Mark::CloseBrace => b"}",
            Mark::OpenBracket => b"[",
            Mark::CloseBracket => b"]",
            Mark::OpenParen => b"(",
            Mark::CloseParen => b")",
            Mark::Semicolon => b";",
            Mark::Dot => b".",
            Mark::Assign => b"=",
            Mark::Same => b"==",
            Mark::Differ => b"!=",
            Mark::Less => b"<",
            Mark::AtMost => b"<=",
            Mark::Plus => b"+",
            Mark::Minus => b"-",
            Mark::Star => b"*",
            Mark::Slash => b"/",
            Mark::Percent => b"%",
        }
    }
}

/// The mark at the front of bytes that begin neither a word nor a number nor a gap, and its length.
pub(crate) fn mark_at(rest: &[u8]) -> Result<(Sort, usize), Flaw>
    requires some { 0 < length rest.now }
    requires solid { IsSolid (slice_index rest.now 0) }
    requires no_letter { is_letter (slice_index rest.now 0) ≡ false }
    requires no_digit { is_digit (slice_index rest.now 0) ≡ false }
    ensures longest { IfOk result (λ found. Longest rest.now found.1) }
    ensures says { IfOk result (λ found. Says (take found.1 rest.now) found.0) }
    ensures flaw { IfErr result (λ flaw. IsFlaw rest.now flaw) }
{
    if let Some(mark) = pair_mark(rest) {
        return Ok((Sort::Mark(mark), 2));
    }
    match single_mark(rest[0]) {
        Some(mark) => Ok((Sort::Mark(mark), 1)),
        None => Err(Flaw::Bad),
    }
}

/// The mark of two bytes at the front.
fn pair_mark(rest: &[u8]) -> Option<Mark>
    ensures inside { IfSome result (λ _. 1 < length rest.now) }
    ensures spelt { IfSome result (λ mark. take 2 rest.now ≡ mark_text mark) }
    ensures none { IfNone result (1 < length rest.now → (mark : Mark) → take 2 rest.now ≡ mark_text mark → ⊥) }
{
    match rest {
        [first, b'=', ..] => double_mark(*first),
        _ => None,
    }
}

/// The mark that is spelt by this byte and `=`.
fn double_mark(byte: u8) -> Option<Mark>
    ensures spelt { IfSome result (λ mark. byte ∷ 61 ∷ [] ≡ mark_text mark) }
    ensures none { IfNone result ((mark : Mark) → byte ∷ 61 ∷ [] ≡ mark_text mark → ⊥) }
{
    match byte {
        b'=' => Some(Mark::Same),
        b'!' => Some(Mark::Differ),
        b'<' => Some(Mark::AtMost),
        _ => None,
    }
}

/// The mark that is spelt by this byte alone.
fn single_mark(byte: u8) -> Option<Mark>
    ensures spelt { IfSome result (λ mark. byte ∷ [] ≡ mark_text mark) }
    ensures none { IfNone result ((mark : Mark) → byte ∷ [] ≡ mark_text mark → ⊥) }
{
    match byte {
        b'{' => Some(Mark::OpenBrace),
        b'}' => Some(Mark::CloseBrace),
        b'[' => Some(Mark::OpenBracket),
        b']' => Some(Mark::CloseBracket),
        b'(' => Some(Mark::OpenParen),
        b')' => Some(Mark::CloseParen),
        b';' => Some(Mark::Semicolon),
        b'.' => Some(Mark::Dot),
        b'=' => Some(Mark::Assign),
        b'<' => Some(Mark::Less),
        b'+' => Some(Mark::Plus),
        b'-' => Some(Mark::Minus),
        b'*' => Some(Mark::Star),
        b'/' => Some(Mark::Slash),
        b'%' => Some(Mark::Percent),
        _ => None,
    }
}

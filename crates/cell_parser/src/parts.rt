ghost use Rattle.std.specs.Prelude.{◌≡◌, ℕ, ◌<◌, ◌≤◌, List, Option, length, IfOk, IfErr};
ghost use Rattle.sys_base.specs.declared.kinds.Dir.{Dir};
ghost use Rattle.cell_parser.specs.Inner.Machine.{State, Route, Label, Length};
ghost use Rattle.cell_parser.specs.Inner.Machine as Mach;
ghost use Rattle.cell_parser.specs.Inner.Reading.{AreTokens, IsRead, IsStuck};
ghost use Rattle.cell_parser.specs.Inner.Declaring.{Comes, Halts, first_dir};

use crate::cursor::{
    after_key, after_mark, dir_of, direction, expect, next_name, number, unexpected,
};
use crate::fault::Fault;
use cell_lexer::{Key, Mark, Token};
use cell_tree::Place;
use std::alloc::Global;
use sys_base::{Dir, Items};

/// A number and a semicolon that have to come first, and the tokens after them.
pub(crate) fn setting(tokens: &[Token]) -> Result<(u64, &[Token]), Fault>
    ensures read { IfOk result (λ r. (text : List ℕ) → IsRead text (λ k. Mach.setting k) tokens.now r.0 r.1.now) }
    ensures wrong { IfErr result (λ e. (text : List ℕ) → IsStuck text (λ k. Mach.setting k) tokens.now e) }
    ensures shorter { IfOk result (λ r. length r.1.now < length tokens.now) }
    ensures kept { IfOk result (λ r. (text : List ℕ) → AreTokens text tokens.now → AreTokens text r.1.now) }
{
    let (number, rest) = number(tokens)?;
    let rest = expect(Mark::Semicolon, rest)?;
    Ok((number, rest))
}

/// A place that has to come first, and the tokens after it.
pub(crate) fn place(tokens: &[Token]) -> Result<(Place, &[Token]), Fault>
    ensures read { IfOk result (λ r. (text : List ℕ) → IsRead text (λ k. Mach.place k) tokens.now r.0 r.1.now) }
    ensures wrong { IfErr result (λ e. (text : List ℕ) → IsStuck text (λ k. Mach.place k) tokens.now e) }
    ensures shorter { IfOk result (λ r. length r.1.now < length tokens.now) }
    ensures kept { IfOk result (λ r. (text : List ℕ) → AreTokens text tokens.now → AreTokens text r.1.now) }
{
    let (row, rest) = number(tokens)?;
    let rest = expect(Mark::Dot, rest)?;
    let (col, rest) = number(rest)?;
    Ok((Place { row, col }, rest))
}

/// The route that comes first, or none, and the tokens after it.
pub(crate) fn route<'a>(
    alloc: Global,
    text: &[u8],
    tokens: &'a [Token],
) -> Result<(Items<Dir>, &'a [Token]), Fault>
    requires { AreTokens text.now tokens.now }
    ensures read { IfOk result
        (λ r. (f : List Dir → Option ℕ → State) → Comes text.now (Route f) tokens.now (Label (λ o. f r.0 o)) r.1.now) }
    ensures wrong { IfErr result (λ e. (f : List Dir → Option ℕ → State) → Halts text.now (Route f) tokens.now e) }
    ensures shorter { IfOk result (λ r. length r.1.now ≤ length tokens.now) }
    ensures kept { IfOk result (λ r. AreTokens text.now r.1.now) }
{
    match after_key(Key::Route, tokens) {
        Some((_, rest)) => dirs(alloc, text, rest),
        None => Ok((Items::new(alloc), tokens)),
    }
}

/// The directions of a route, at least one, and the tokens after them.
fn dirs<'a>(
    alloc: Global,
    text: &[u8],
    tokens: &'a [Token],
) -> Result<(Items<Dir>, &'a [Token]), Fault>
    requires { AreTokens text.now tokens.now }
    ensures read { IfOk result
        (λ r. (f : List Dir → Option ℕ → State)
        → Comes text.now (first_dir f) tokens.now (Label (λ o. f r.0 o)) r.1.now) }
    ensures wrong { IfErr result (λ e. (f : List Dir → Option ℕ → State) → Halts text.now (first_dir f) tokens.now e) }
    ensures shorter { IfOk result (λ r. length r.1.now ≤ length tokens.now) }
    ensures kept { IfOk result (λ r. AreTokens text.now r.1.now) }
{
    let mut dirs = Items::new(alloc);
    let (first, mut rest) = direction(text, tokens)?;
    dirs.push(first)?;
    'each: while let Some((bytes, _, after)) = next_name(text, rest) {
        let Some(dir) = dir_of(bytes) else {
            return Err(unexpected(rest));
        };
        dirs.push(dir)?;
        rest = after;
    }
    Ok((dirs, rest))
}

/// The label that comes first, or none, with the semicolon that has to follow, and the tokens after it.
pub(crate) fn label(tokens: &[Token]) -> Result<(Option<u64>, &[Token]), Fault>
    ensures read { IfOk result (λ r. (text : List ℕ) → IsRead text Label tokens.now r.0 r.1.now) }
    ensures wrong { IfErr result (λ e. (text : List ℕ) → IsStuck text Label tokens.now e) }
    ensures shorter { IfOk result (λ r. length r.1.now < length tokens.now) }
    ensures kept { IfOk result (λ r. (text : List ℕ) → AreTokens text tokens.now → AreTokens text r.1.now) }
{
    if let Some((_, rest)) = after_key(Key::Label, tokens) {
        let (label, rest) = setting(rest)?;
        return Ok((Some(label), rest));
    }
    let rest = expect(Mark::Semicolon, tokens)?;
    Ok((None, rest))
}

/// The length that comes first in brackets, or none, with the semicolon that has to follow, and the tokens after it.
pub(crate) fn length(tokens: &[Token]) -> Result<(Option<u64>, &[Token]), Fault>
    ensures read { IfOk result (λ r. (text : List ℕ) → IsRead text Length tokens.now r.0 r.1.now) }
    ensures wrong { IfErr result (λ e. (text : List ℕ) → IsStuck text Length tokens.now e) }
    ensures shorter { IfOk result (λ r. length r.1.now < length tokens.now) }
    ensures kept { IfOk result (λ r. (text : List ℕ) → AreTokens text tokens.now → AreTokens text r.1.now) }
{
    if let Some(rest) = after_mark(Mark::OpenBracket, tokens) {
        let (length, rest) = number(rest)?;
        let rest = expect(Mark::CloseBracket, rest)?;
        let rest = expect(Mark::Semicolon, rest)?;
        return Ok((Some(length), rest));
    }
    let rest = expect(Mark::Semicolon, tokens)?;
    Ok((None, rest))
}

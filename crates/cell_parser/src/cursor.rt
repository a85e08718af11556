ghost use Rattle.std.specs.Prelude.{◌≡◌, ℕ, ◌<◌, ◌∷◌, List, length, IfOk, IfErr, IfSome, IfNone, codes};
ghost use Rattle.sys_base.specs.Name.{IsName};
ghost use Rattle.sys_base.specs.declared.key.Key.{Key};
ghost use Rattle.cell_lexer.specs.declared.token.Mark.{Mark};
ghost use Rattle.cell_parser.specs.Lexeme.{Named, Numeral, Keyword, Marked, At, lexemes};
ghost use Rattle.cell_parser.specs.Inner.Machine.{dir_of, ExpectName, ExpectNumber, ExpectKey, ExpectDir};
ghost use Rattle.cell_parser.specs.Inner.Reading.{AreTokens, Begins, Lacks, IsRead, IsStuck, Takes, Misses};

use crate::fault::Fault;
use crate::names::Names;
use cell_lexer::{Key, Mark, Sort, Token};
use std::alloc::Global;
use sys_base::{Dir, Name};

/// The fault that the first of these tokens is, or the end where there is none.
pub(crate) fn unexpected(tokens: &[Token]) -> Fault
    ensures { result ≡ Fault.Unexpected (length tokens.now) }
{
    Fault::Unexpected { left: tokens.len() }
}

/// The first token where it is a mark, and the tokens after it.
#[tactic(auto, unfolding(crate::specs::Inner::Reading::AreTokens))]
pub(crate) fn next_mark(tokens: &[Token]) -> Option<(Mark, &[Token])>
    ensures some { IfSome result (λ r. (text : List ℕ) → Begins text (Marked r.0) tokens.now r.1.now) }
    ensures none { IfNone result ((text : List ℕ) (m : Mark) → Lacks text (Marked m) tokens.now) }
    ensures shorter { IfSome result (λ r. length r.1.now < length tokens.now) }
    ensures kept { IfSome result (λ r. (text : List ℕ) → AreTokens text tokens.now → AreTokens text r.1.now) }
{
    let (first, rest) = tokens.split_first()?;
    match first.sort {
        Sort::Mark(mark) => Some((mark, rest)),
        _ => None,
    }
}

/// The tokens after this mark; `None` exactly where it does not come first.
pub(crate) fn after_mark(mark: Mark, tokens: &[Token]) -> Option<&[Token]>
    ensures some { IfSome result (λ rest. (text : List ℕ) → Begins text (Marked mark) tokens.now rest.now) }
    ensures none { IfNone result ((text : List ℕ) → Lacks text (Marked mark) tokens.now) }
    ensures shorter { IfSome result (λ rest. length rest.now < length tokens.now) }
    ensures kept { IfSome result (λ rest. (text : List ℕ) → AreTokens text tokens.now → AreTokens text rest.now) }
{
    let (found, rest) = next_mark(tokens)?;
    if found == mark { Some(rest) } else { None }
}

/// The tokens after this mark, which has to come first.
pub(crate) fn expect(mark: Mark, tokens: &[Token]) -> Result<&[Token], Fault>
    ensures read { IfOk result (λ rest. (text : List ℕ) → Takes text (Marked mark) tokens.now rest.now) }
    ensures wrong { IfErr result (λ e. (text : List ℕ) → Misses text (Marked mark) tokens.now e) }
    ensures shorter { IfOk result (λ rest. length rest.now < length tokens.now) }
    ensures kept { IfOk result (λ rest. (text : List ℕ) → AreTokens text tokens.now → AreTokens text rest.now) }
{
    match after_mark(mark, tokens) {
        Some(rest) => Ok(rest),
        None => Err(unexpected(tokens)),
    }
}

/// The first token where it is a keyword, with its line, and the tokens after it.
#[tactic(auto, unfolding(crate::specs::Inner::Reading::AreTokens))]
pub(crate) fn next_key(tokens: &[Token]) -> Option<(Key, u32, &[Token])>
    ensures some { IfSome result (λ r. (text : List ℕ) → lexemes text tokens.now
        ≡ At r.1 (Keyword r.0) ∷ lexemes text r.2.now) }
    ensures none { IfNone result ((text : List ℕ) (key : Key) → Lacks text (Keyword key) tokens.now) }
    ensures shorter { IfSome result (λ r. length r.2.now < length tokens.now) }
    ensures kept { IfSome result (λ r. (text : List ℕ) → AreTokens text tokens.now → AreTokens text r.2.now) }
{
    let (first, rest) = tokens.split_first()?;
    match first.sort {
        Sort::Key(key) => Some((key, first.line, rest)),
        _ => None,
    }
}

/// The line of this keyword and the tokens after it; `None` exactly where it does not come first.
pub(crate) fn after_key(key: Key, tokens: &[Token]) -> Option<(u32, &[Token])>
    ensures some { IfSome result (λ r. (text : List ℕ) → lexemes text tokens.now
        ≡ At r.0 (Keyword key) ∷ lexemes text r.1.now) }
    ensures none { IfNone result ((text : List ℕ) → Lacks text (Keyword key) tokens.now) }
    ensures shorter { IfSome result (λ r. length r.1.now < length tokens.now) }
    ensures kept { IfSome result (λ r. (text : List ℕ) → AreTokens text tokens.now → AreTokens text r.1.now) }
{
    let (found, line, rest) = next_key(tokens)?;
    if found == key {
        Some((line, rest))
    } else {
        None
    }
}

/// The line of this keyword, which has to come first, and the tokens after it.
pub(crate) fn keyword(key: Key, tokens: &[Token]) -> Result<(u32, &[Token]), Fault>
    ensures read { IfOk result (λ r. (text : List ℕ) → IsRead text (λ k. ExpectKey key k) tokens.now r.0 r.1.now) }
    ensures wrong { IfErr result (λ e. (text : List ℕ) → IsStuck text (λ k. ExpectKey key k) tokens.now e) }
    ensures shorter { IfOk result (λ r. length r.1.now < length tokens.now) }
    ensures kept { IfOk result (λ r. (text : List ℕ) → AreTokens text tokens.now → AreTokens text r.1.now) }
{
    match after_key(key, tokens) {
        Some((line, rest)) => Ok((line, rest)),
        None => Err(unexpected(tokens)),
    }
}

/// The tokens after this keyword, which has to come first.
pub(crate) fn expect_key(key: Key, tokens: &[Token]) -> Result<&[Token], Fault>
    ensures read { IfOk result (λ rest. (text : List ℕ) → Takes text (Keyword key) tokens.now rest.now) }
    ensures wrong { IfErr result (λ e. (text : List ℕ) → Misses text (Keyword key) tokens.now e) }
    ensures shorter { IfOk result (λ rest. length rest.now < length tokens.now) }
    ensures kept { IfOk result (λ rest. (text : List ℕ) → AreTokens text tokens.now → AreTokens text rest.now) }
{
    match after_key(key, tokens) {
        Some((_, rest)) => Ok(rest),
        None => Err(unexpected(tokens)),
    }
}

/// The value of the first token where it is a number, and the tokens after it.
#[tactic(auto, unfolding(crate::specs::Inner::Reading::AreTokens))]
pub(crate) fn next_number(tokens: &[Token]) -> Option<(u64, &[Token])>
    ensures some { IfSome result (λ r. (text : List ℕ) → Begins text (Numeral r.0) tokens.now r.1.now) }
    ensures none { IfNone result ((text : List ℕ) (n : ℕ) → Lacks text (Numeral n) tokens.now) }
    ensures shorter { IfSome result (λ r. length r.1.now < length tokens.now) }
    ensures kept { IfSome result (λ r. (text : List ℕ) → AreTokens text tokens.now → AreTokens text r.1.now) }
{
    let (first, rest) = tokens.split_first()?;
    match first.sort {
        Sort::Number(number) => Some((number, rest)),
        _ => None,
    }
}

/// A number that has to come first, and the tokens after it.
pub(crate) fn number(tokens: &[Token]) -> Result<(u64, &[Token]), Fault>
    ensures read { IfOk result (λ r. (text : List ℕ) → IsRead text ExpectNumber tokens.now r.0 r.1.now) }
    ensures wrong { IfErr result (λ e. (text : List ℕ) → IsStuck text ExpectNumber tokens.now e) }
    ensures shorter { IfOk result (λ r. length r.1.now < length tokens.now) }
    ensures kept { IfOk result (λ r. (text : List ℕ) → AreTokens text tokens.now → AreTokens text r.1.now) }
{
    match next_number(tokens) {
        Some((number, rest)) => Ok((number, rest)),
        None => Err(unexpected(tokens)),
    }
}

/// The bytes of the first token where it is a name, with its line, and the tokens after it.
#[tactic(auto, unfolding(crate::specs::Inner::Reading::AreTokens))]
pub(crate) fn next_name<'a, 'b>(
    text: &'b [u8],
    tokens: &'a [Token],
) -> Option<(&'b [u8], u32, &'a [Token])>
    requires { AreTokens text.now tokens.now }
    ensures some { IfSome result (λ r. lexemes text.now tokens.now
        ≡ At r.1 (Named r.0.now) ∷ lexemes text.now r.2.now) }
    ensures name { IfSome result (λ r. IsName r.0.now) }
    ensures none { IfNone result ((n : List ℕ) → Lacks text.now (Named n) tokens.now) }
    ensures shorter { IfSome result (λ r. length r.2.now < length tokens.now) }
    ensures kept { IfSome result (λ r. AreTokens text.now r.2.now) }
{
    let (first, rest) = tokens.split_first()?;
    match first.sort {
        Sort::Name => {
            let bytes = &text[first.at as usize..][..first.len as usize];
            Some((bytes, first.line, rest))
        }
        _ => None,
    }
}

/// A name that has to come first, and the tokens after it.
pub(crate) fn name<'t, 'a>(
    alloc: Global,
    names: &mut Names<'t>,
    text: &'t [u8],
    tokens: &'a [Token],
) -> Result<(Name, &'a [Token]), Fault>
    requires { AreTokens text.now tokens.now }
    ensures read { IfOk result (λ r. IsRead text.now ExpectName tokens.now r.0 r.1.now) }
    ensures wrong { IfErr result (λ e. IsStuck text.now ExpectName tokens.now e) }
    ensures shorter { IfOk result (λ r. length r.1.now < length tokens.now) }
    ensures kept { IfOk result (λ r. AreTokens text.now r.1.now) }
{
    match next_name(text, tokens) {
        Some((bytes, _, rest)) => Ok((names.named(alloc, bytes)?, rest)),
        None => Err(unexpected(tokens)),
    }
}

/// The word `x`, which has to come first, and the tokens after it.
pub(crate) fn expect_x<'a>(text: &[u8], tokens: &'a [Token]) -> Result<&'a [Token], Fault>
    requires { AreTokens text.now tokens.now }
    ensures read { IfOk result (λ rest. Takes text.now (Named (codes "x")) tokens.now rest.now) }
    ensures wrong { IfErr result (λ e. Misses text.now (Named (codes "x")) tokens.now e) }
    ensures shorter { IfOk result (λ rest. length rest.now < length tokens.now) }
    ensures kept { IfOk result (λ rest. AreTokens text.now rest.now) }
{
    match after_x(text, tokens) {
        Some(rest) => Ok(rest),
        None => Err(unexpected(tokens)),
    }
}

fn after_x<'a>(text: &[u8], tokens: &'a [Token]) -> Option<&'a [Token]>
    requires { AreTokens text.now tokens.now }
    ensures some { IfSome result (λ rest. Begins text.now (Named (codes "x")) tokens.now rest.now) }
    ensures none { IfNone result (Lacks text.now (Named (codes "x")) tokens.now) }
    ensures shorter { IfSome result (λ rest. length rest.now < length tokens.now) }
    ensures kept { IfSome result (λ rest. AreTokens text.now rest.now) }
{
    let (bytes, _, rest) = next_name(text, tokens)?;
    if bytes == b"x".as_slice() {
        Some(rest)
    } else {
        None
    }
}

/// The direction with this spelling.
pub(crate) fn dir_of(bytes: &[u8]) -> Option<Dir>
    ensures { result ≡ dir_of bytes.now }
{
    match bytes {
        b"N" => Some(Dir::N),
        b"E" => Some(Dir::E),
        b"S" => Some(Dir::S),
        b"W" => Some(Dir::W),
        _ => None,
    }
}

/// A direction that has to come first, and the tokens after it.
pub(crate) fn direction<'a>(text: &[u8], tokens: &'a [Token]) -> Result<(Dir, &'a [Token]), Fault>
    requires { AreTokens text.now tokens.now }
    ensures read { IfOk result (λ r. IsRead text.now ExpectDir tokens.now r.0 r.1.now) }
    ensures wrong { IfErr result (λ e. IsStuck text.now ExpectDir tokens.now e) }
    ensures shorter { IfOk result (λ r. length r.1.now < length tokens.now) }
    ensures kept { IfOk result (λ r. AreTokens text.now r.1.now) }
{
    let Some((bytes, _, rest)) = next_name(text, tokens) else {
        return Err(unexpected(tokens));
    };
    match dir_of(bytes) {
        Some(dir) => Ok((dir, rest)),
        None => Err(unexpected(tokens)),
    }
}

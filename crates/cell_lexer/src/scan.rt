ghost use Rattle.std.specs.Prelude.{◌≡◌, ◌+◌, ◌<◌, ◌≤◌, ◌⊎◌, List, length, take, slice_index, All, IfOk, IfErr, MatchResult};
ghost use Rattle.sys_base.specs.declared.limits.TheConstants.{SOURCE_BYTES};
ghost use Rattle.cell_lexer.specs.declared.error.LexError.{LexError};
ghost use Rattle.cell_lexer.specs.declared.token.Token.{Token};
ghost use Rattle.cell_lexer.specs.Faults.{FaultAt, FirstFault};
ghost use Rattle.cell_lexer.specs.Forms.{Longest, Says};
ghost use Rattle.cell_lexer.specs.Inner.Scanning.{IsFirst, IsFlaw, IsPlace, IsSolid};
ghost use Rattle.cell_lexer.specs.Tokens.{IsToken, TokensOf};

use crate::error::LexError;
use crate::flaw::Flaw;
use crate::gaps::gap_end;
use crate::marks::mark_at;
use crate::numbers::number_at;
use crate::place::{Place, START, past};
use crate::token::{Sort, Token};
use crate::words::name_at;
use std::alloc::Global;
use sys_base::bytes::{is_digit, is_letter};

/// The tokens of a text in order, each the longest at its place, with nothing but separators and comments between them.
///
/// An error is the first thing that is wrong in the text, or `Memory`, which may come for any text. The time is linear.
pub fn tokens(alloc: Global, text: &[u8]) -> Result<Vec<Token>, LexError>
    requires { length text.now ≤ SOURCE_BYTES }

    // What is answered is right.
    ensures tokens { IfOk result (λ v. TokensOf text.now v.items) }
    ensures each { IfOk result (λ v. All (IsToken text.now) v.items) }
    ensures nonempty { IfOk result (λ v. All (λ t. 0 < t.len) v.items) }
    ensures inside { IfOk result (λ v. All (λ t. t.at + t.len ≤ length text.now) v.items) }
    ensures fault { IfErr result (λ e. FirstFault text.now e ⊎ (e ≡ LexError.Memory)) }

    // What there is, is answered, unless memory runs out.
    ensures only { (ts : List Token) → TokensOf text.now ts
        → MatchResult result (λ v. v.items ≡ ts) (λ e. e ≡ LexError.Memory) }
    ensures only_fault { (f : LexError) → FirstFault text.now f
        → MatchResult result (λ _. ⊥) (λ e. (e ≡ f) ⊎ (e ≡ LexError.Memory)) }
{
    scan(alloc, text)
}

fn scan(alloc: Global, text: &[u8]) -> Result<Vec<Token>, LexError>
    requires { length text.now ≤ SOURCE_BYTES }
    ensures tokens { IfOk result (λ v. TokensOf text.now v.items) }
    ensures fault { IfErr result (λ e. IsFirst text.now e) }
{
    let mut all = Vec::new(alloc);
    let mut place = gap_end(text, START);
    'each: while (place.at as usize) < text.len() {
        let token = token_at(text, place)?;
        all.push(token)?;
        place = gap_end(text, past(text, place, token.len));
    }
    Ok(all)
}

/// The token at a place that no gap goes on from.
fn token_at(text: &[u8], place: Place) -> Result<Token, LexError>
    requires short { length text.now ≤ SOURCE_BYTES }
    requires inside { place.at < length text.now }
    requires place { IsPlace text.now place }
    requires solid { IsSolid (slice_index text.now place.at) }
    ensures token { IfOk result (λ t. IsToken text.now t) }
    ensures at { IfOk result (λ t. t.at ≡ place.at) }
    ensures fault { IfErr result (λ e. FaultAt text.now place.at e) }
{
    match word_at(&text[place.at as usize..]) {
        Ok((sort, len)) => Ok(Token {
            sort,
            at: place.at,
            len: len as u32,
            line: place.line,
            column: place.column,
        }),
        Err(Flaw::Bad) => Err(LexError::BadByte { at: place.at }),
        Err(Flaw::Big) => Err(LexError::BigNumber { line: place.line }),
        Err(Flaw::Long) => Err(LexError::LongName { line: place.line }),
    }
}

/// What token stands at the front of some bytes, and its length.
fn word_at(rest: &[u8]) -> Result<(Sort, usize), Flaw>
    requires some { 0 < length rest.now }
    requires solid { IsSolid (slice_index rest.now 0) }
    ensures longest { IfOk result (λ found. Longest rest.now found.1) }
    ensures says { IfOk result (λ found. Says (take found.1 rest.now) found.0) }
    ensures flaw { IfErr result (λ flaw. IsFlaw rest.now flaw) }
{
    if is_letter(rest[0]) {
        name_at(rest)
    } else if is_digit(rest[0]) {
        number_at(rest)
    } else {
        mark_at(rest)
    }
}

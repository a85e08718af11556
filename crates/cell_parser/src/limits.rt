ghost use Rattle.std.specs.Prelude.{◌≡◌, ◌≤◌, IfOk, IfErr};
ghost use Rattle.cell_lexer.specs.declared.limits.TheConstants.{PIECE_TOKENS, OPEN_BRACES};
ghost use Rattle.cell_parser.specs.declared.error.ParseError.{ParseError};
ghost use Rattle.cell_parser.specs.Limits.{parts, piece_after, braces_after, Over, KeepLimits, FirstOver};

use crate::error::ParseError;
use cell_lexer::{Mark, OPEN_BRACES, PIECE_TOKENS, Sort, Token};

/// The first token that is one too many in its piece, or opens one brace too many.
pub(crate) fn keep_limits(tokens: &[Token]) -> Result<(), ParseError>
    ensures kept { IfOk result (λ _. KeepLimits tokens.now) }
    ensures over { IfErr result (λ e. FirstOver tokens.now e) }
{
    let mut piece = 0;
    let mut braces = 0;
    for token in tokens {
        keep_limit(*token, piece, braces)?;
        piece = piece_after(token.sort, piece);
        braces = braces_after(token.sort, braces);
    }
    Ok(())
}

/// Refuses a token that is one too many in its piece, where the piece has this many tokens before it, or opens one
/// brace too many.
fn keep_limit(token: Token, piece: u32, braces: u32) -> Result<(), ParseError>
    requires short { piece ≤ PIECE_TOKENS }
    requires few { braces ≤ OPEN_BRACES }
    ensures kept { IfOk result (λ _. (e : ParseError) → Over piece braces token e → ⊥) }
    ensures over { IfErr result (λ e. Over piece braces token e) }
    ensures short { IfOk result (λ _. piece_after token.sort piece ≤ PIECE_TOKENS) }
    ensures few { IfOk result (λ _. braces_after token.sort braces ≤ OPEN_BRACES) }
{
    if piece == PIECE_TOKENS && !parts(token.sort) {
        return Err(ParseError::LongPiece { line: token.line });
    }
    if braces == OPEN_BRACES && token.sort == Sort::Mark(Mark::OpenBrace) {
        return Err(ParseError::Braces { line: token.line });
    }
    Ok(())
}

/// Whether a token of this sort stands in no piece.
fn parts(sort: Sort) -> bool
    ensures { result ≡ parts sort }
{
    match sort {
        Sort::Mark(Mark::Semicolon) => true,
        Sort::Mark(Mark::OpenBrace) => true,
        Sort::Mark(Mark::CloseBrace) => true,
        _ => false,
    }
}

/// The tokens of one piece at the end of some tokens, where there were this many before a token of this sort came.
fn piece_after(sort: Sort, piece: u32) -> u32
    requires { piece_after sort piece ≤ PIECE_TOKENS }
    ensures { result ≡ piece_after sort piece }
{
    if parts(sort) { 0 } else { piece + 1 }
}

/// The open braces after a token, where this many are open before it.
fn braces_after(sort: Sort, braces: u32) -> u32
    requires { braces_after sort braces ≤ OPEN_BRACES }
    ensures { result ≡ braces_after sort braces }
{
    match sort {
        Sort::Mark(Mark::OpenBrace) => braces + 1,
        Sort::Mark(Mark::CloseBrace) => braces.saturating_sub(1),
        _ => braces,
    }
}

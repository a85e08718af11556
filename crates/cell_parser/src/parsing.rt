ghost use Rattle.std.specs.Prelude.{◌≡◌, ℕ, ◌-◌, ◌^◌, ◌<◌, ◌≤◌, ◌⊎◌, length, slice_get, IfOk, IfErr, MatchResult};
ghost use Rattle.cell_lexer.specs.Tokens.{TokensOf};
ghost use Rattle.cell_tree.specs.Printable.{IsPrintable};
ghost use Rattle.cell_tree.specs.declared.source.Source.{Source};
ghost use Rattle.cell_parser.specs.declared.error.ParseError.{ParseError};
ghost use Rattle.cell_parser.specs.Grammar.{Reads};
ghost use Rattle.cell_parser.specs.Lexeme.{lexemes};
ghost use Rattle.cell_parser.specs.Limits.{KeepLimits, FirstOver};
ghost use Rattle.cell_parser.specs.Refusal.{HasPlace, IsRefused, WrongAt};

use crate::error::ParseError;
use crate::fault::Fault;
use crate::laws_printed::read_is_printable;
use crate::limits::keep_limits;
use crate::program::program;
use cell_lexer::{Position, Token, end_of, few_tokens};
use cell_tree::Source;
use std::alloc::Global;

/// The source that the tokens of a text are, where they keep the limits on pieces and braces.
///
/// An error is the first token that breaks a limit (E06, E07); where none does, the first token that can't stand
/// where it stands, or the end of the text (E02); or `Memory`, which may come for any text. The time is linear.
pub fn parse(alloc: Global, text: &[u8], tokens: &[Token]) -> Result<Source, ParseError>
    requires short { length text.now < 2 ^ 32 - 1 }
    requires tokens { TokensOf text.now tokens.now }

    // What is answered is right.
    ensures read { IfOk result (λ s. Reads (lexemes text.now tokens.now) s × KeepLimits tokens.now) }
    ensures printable { IfOk result IsPrintable }
    ensures refused { IfErr result (IsRefused text.now tokens.now) }

    // What there is, is answered, unless memory runs out.
    ensures only { (s : Source) → Reads (lexemes text.now tokens.now) s → KeepLimits tokens.now
        → MatchResult result (λ t. t ≡ s) (λ e. e ≡ ParseError.Memory) }
    ensures only_over { (f : ParseError) → FirstOver tokens.now f
        → MatchResult result (λ _. ⊥) (λ e. (e ≡ f) ⊎ (e ≡ ParseError.Memory)) }
    ensures only_wrong { (line column : ℕ) → WrongAt text.now tokens.now line column
        → MatchResult result (λ _. ⊥) (λ e. (e ≡ ParseError.Unexpected line column) ⊎ (e ≡ ParseError.Memory)) }
{
    read_is_printable();
    limited(alloc, text, tokens)
}

/// The source that the tokens are, once they have been found to keep the limits.
fn limited(alloc: Global, text: &[u8], tokens: &[Token]) -> Result<Source, ParseError>
    requires short { length text.now < 2 ^ 32 - 1 }
    requires tokens { TokensOf text.now tokens.now }
    ensures read { IfOk result (λ s. Reads (lexemes text.now tokens.now) s × KeepLimits tokens.now) }
    ensures refused { IfErr result (IsRefused text.now tokens.now) }
{
    few_tokens();
    keep_limits(tokens)?;
    match program(alloc, text, tokens) {
        Ok(source) => Ok(source),
        Err(Fault::Memory) => Err(ParseError::Memory),
        Err(Fault::Unexpected { left }) => {
            let place = place_of(text, tokens, left);
            Err(ParseError::Unexpected {
                line: place.line,
                column: place.column,
            })
        }
    }
}

/// Where the token stands that has this many tokens left from it on, or the end of the text where none is left.
fn place_of(text: &[u8], tokens: &[Token], left: usize) -> Position
    requires short { length text.now < 2 ^ 32 - 1 }
    requires left { left ≤ length tokens.now }
    ensures { HasPlace text.now (slice_get tokens.now (length tokens.now - left)) result.line result.column }
{
    if left == 0 {
        return end_of(text);
    }
    let token = tokens[tokens.len() - left];
    Position {
        line: token.line,
        column: token.column,
    }
}

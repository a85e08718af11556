ghost use Rattle.std.specs.Prelude.{◌≡◌, ℕ, ◌≤◌, ◌⊎◌, List, length};
ghost use Rattle.cell_lexer.specs.Tokens.{TokensOf};
ghost use Rattle.cell_lexer.specs.declared.token.Token.{Token};
ghost use Rattle.cell_tree.specs.Nodes.{source_nodes};
ghost use Rattle.cell_tree.specs.declared.source.Source.{Source};
ghost use Rattle.cell_parser.specs.declared.error.ParseError.{ParseError};
ghost use Rattle.cell_parser.specs.FirstWrong.{FirstWrong};
ghost use Rattle.cell_parser.specs.Grammar.{Reads};
ghost use Rattle.cell_parser.specs.Lexeme.{Lexeme, lexemes};
ghost use Rattle.cell_parser.specs.Limits.{KeepLimits, FirstOver};
ghost use Rattle.cell_parser.specs.Refusal.{WrongAt};

use cell_lexer::few_tokens;

/// A law: two sources that are read from the same words are one, their lines included.
pub fn one_program()
    ensures { (ts : List Lexeme) (s t : Source) → Reads ts s → Reads ts t → s ≡ t }
{}

/// A law: one place at most is the first wrong one, and none is where the words are those of a source.
pub fn one_first_wrong()
    ensures one { (ts : List Lexeme) (a b : ℕ) → FirstWrong ts a → FirstWrong ts b → a ≡ b }
    ensures none { (ts : List Lexeme) (s : Source) (at : ℕ) → Reads ts s → FirstWrong ts at → ⊥ }
{}

/// A law: tokens keep the limits, or one of them is the first that breaks one.
pub fn some_limit()
    ensures { (ts : List Token) → KeepLimits ts ⊎ ((e : ParseError) × FirstOver ts e) }
{}

/// A law: tokens that keep the limits read to a source, or have a first wrong place.
pub fn some_program()
    ensures { (text : List ℕ) (ts : List Token) → KeepLimits ts
        → ((s : Source) × Reads (lexemes text ts) s)
        ⊎ ((line : ℕ) × (column : ℕ) × WrongAt text ts line column) }
{}

/// A law: the nodes of a source are no more than the tokens that it is read from, and than the bytes of their text.
pub fn few_nodes()
    ensures tokens { (text : List ℕ) (ts : List Token) (s : Source) → Reads (lexemes text ts) s
        → source_nodes s ≤ length ts }
    ensures bytes { (text : List ℕ) (ts : List Token) (s : Source) → TokensOf text ts → Reads (lexemes text ts) s
        → source_nodes s ≤ length text }
{
    few_tokens();
}

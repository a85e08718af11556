ghost use Rattle.std.specs.Prelude.{◌≡◌, ℕ, List, [], map};
ghost use Rattle.cell_lexer.specs.Tokens.{TokensOf};
ghost use Rattle.cell_lexer.specs.declared.token.Token.{Token};
ghost use Rattle.cell_tree.specs.Canonical.{canonical, canonical_pieces};
ghost use Rattle.cell_tree.specs.Printable.{IsPrintable};
ghost use Rattle.cell_tree.specs.declared.source.Source.{Source};
ghost use Rattle.cell_parser.specs.Grammar.{Reads};
ghost use Rattle.cell_parser.specs.Lexeme.{Lexeme, lexemes};
ghost use Rattle.cell_parser.specs.Limits.{KeepLimits};
ghost use Rattle.cell_parser.specs.Printed.{spoken, Covers, unlined};
ghost use Rattle.cell_parser.specs.Inner.Told.{told, told_piece};

use cell_lexer::{one_outcome, read_back};

/// A law: lexemes that say just the words of a source's canonical text, on any lines, are those of a source that is
/// the same but for its lines. The words are spelt as the pieces of the canonical text.
pub fn printed_is_in_the_grammar()
    ensures spelt { (s : Source) → map told_piece (told s) ≡ canonical_pieces s }
    ensures reads { (s : Source) (ts : List Lexeme) → Covers (spoken s) ts []
        → (t : Source) × Reads ts t × (unlined t ≡ unlined s) }
{}

/// A law: the canonical text of a printable source has tokens, and they are those of a source that is the same but
/// for its lines.
pub fn printed_text_reads_back()
    ensures tokens { (s : Source) → IsPrintable s → (ts : List Token) × TokensOf (canonical s) ts }
    ensures reads { (s : Source) → IsPrintable s → (ts : List Token) → TokensOf (canonical s) ts
        → (t : Source) × Reads (lexemes (canonical s) ts) t × (unlined t ≡ unlined s) }
{
    read_back();
    one_outcome();
}

/// A law: lines are no part of the canonical text, so sources that are the same but for their lines have the same one.
pub fn lines_are_not_printed()
    ensures { (s t : Source) → unlined s ≡ unlined t → canonical s ≡ canonical t }
{}

/// A law: the tokens of the canonical text of a printable source keep the limits.
pub fn printed_keeps_limits()
    ensures { (s : Source) → IsPrintable s → (ts : List Token) → TokensOf (canonical s) ts → KeepLimits ts }
{
    read_back();
    one_outcome();
}

/// A law: a source that was read from the tokens of a text, where they keep the limits, is printable.
pub fn read_is_printable()
    ensures { (text : List ℕ) (ts : List Token) (s : Source) → TokensOf text ts → KeepLimits ts
        → Reads (lexemes text ts) s
        → IsPrintable s }
{
    read_back();
}

ghost use Rattle.std.specs.Prelude.{◌≡◌, ℕ, ◌<◌, List, length, IfSome, IfNone};
ghost use Rattle.sys_base.specs.declared.kinds.Op.{Op};
ghost use Rattle.cell_parser.specs.Grammar.{class, Product, Additive, Comparison};
ghost use Rattle.cell_parser.specs.Lexeme.{Marked, lexemes};
ghost use Rattle.cell_parser.specs.Inner.Machine.{State, run, whole, ByBracket, Open, Called, Have, Want, WantAtom, Terms, Sums, Compares, Operand, Negates};
ghost use Rattle.cell_parser.specs.Inner.Reading.{AreTokens};
ghost use Rattle.cell_tree.specs.declared.expression.Expr.{Expr};
ghost use Rattle.cell_tree.specs.declared.expression.Expr.TheVariants as E;

use crate::cursor::{after_mark, next_mark};
use cell_lexer::{Mark, Token};
use sys_base::Op;

/// The operator that comes first where it is `*`, `/` or `%`, and the tokens after it.
pub(crate) fn product(tokens: &[Token]) -> Option<(Op, &[Token])>
    ensures some { IfSome result (λ r. (text : List ℕ) (e : Expr) (k : Open)
        → run (Have e (Terms k)) (lexemes text tokens.now)
        ≡ run (Want (Operand r.0 e (Terms k))) (lexemes text r.1.now)) }
    ensures none { IfNone result ((text : List ℕ) (e : Expr) (k : Open)
        → run (Have e (Terms k)) (lexemes text tokens.now) ≡ run (Have e k) (lexemes text tokens.now)) }
    ensures shorter { IfSome result (λ r. length r.1.now < length tokens.now) }
    ensures kept { IfSome result (λ r. (text : List ℕ) → AreTokens text tokens.now → AreTokens text r.1.now) }
{
    let (mark, rest) = next_mark(tokens)?;
    let op = product_of(mark)?;
    Some((op, rest))
}

fn product_of(mark: Mark) -> Option<Op>
    ensures some { IfSome result (λ op. class (Marked mark) ≡ Product op) }
    ensures none { IfNone result ((op : Op) → class (Marked mark) ≡ Product op → ⊥) }
{
    match mark {
        Mark::Star => Some(Op::Mul),
        Mark::Slash => Some(Op::Div),
        Mark::Percent => Some(Op::Rem),
        _ => None,
    }
}

/// The operator that comes first where it is `+` or `-`, and the tokens after it.
pub(crate) fn additive(tokens: &[Token]) -> Option<(Op, &[Token])>
    ensures some { IfSome result (λ r. (text : List ℕ) (e : Expr) (k : Open)
        → run (Have e (Sums k)) (lexemes text tokens.now)
        ≡ run (Want (Terms (Operand r.0 e (Sums k)))) (lexemes text r.1.now)) }
    ensures none { IfNone result ((text : List ℕ) (e : Expr) (k : Open)
        → run (Have e (Sums k)) (lexemes text tokens.now) ≡ run (Have e k) (lexemes text tokens.now)) }
    ensures shorter { IfSome result (λ r. length r.1.now < length tokens.now) }
    ensures kept { IfSome result (λ r. (text : List ℕ) → AreTokens text tokens.now → AreTokens text r.1.now) }
{
    let (mark, rest) = next_mark(tokens)?;
    let op = additive_of(mark)?;
    Some((op, rest))
}

fn additive_of(mark: Mark) -> Option<Op>
    ensures some { IfSome result (λ op. class (Marked mark) ≡ Additive op) }
    ensures none { IfNone result ((op : Op) → class (Marked mark) ≡ Additive op → ⊥) }
{
    match mark {
        Mark::Plus => Some(Op::Add),
        Mark::Minus => Some(Op::Sub),
        _ => None,
    }
}

/// The operator that comes first where it is a comparison, and the tokens after it.
pub(crate) fn comparison(tokens: &[Token]) -> Option<(Op, &[Token])>
    ensures some { IfSome result (λ r. (text : List ℕ) (e : Expr) (k : Open)
        → run (Have e (Compares k)) (lexemes text tokens.now)
        ≡ run (Want (Terms (Sums (Operand r.0 e k)))) (lexemes text r.1.now)) }
    ensures none { IfNone result ((text : List ℕ) (e : Expr) (k : Open)
        → run (Have e (Compares k)) (lexemes text tokens.now) ≡ run (Have e k) (lexemes text tokens.now)) }
    ensures shorter { IfSome result (λ r. length r.1.now < length tokens.now) }
    ensures kept { IfSome result (λ r. (text : List ℕ) → AreTokens text tokens.now → AreTokens text r.1.now) }
{
    let (mark, rest) = next_mark(tokens)?;
    let op = comparison_of(mark)?;
    Some((op, rest))
}

fn comparison_of(mark: Mark) -> Option<Op>
    ensures some { IfSome result (λ op. class (Marked mark) ≡ Comparison op) }
    ensures none { IfNone result ((op : Op) → class (Marked mark) ≡ Comparison op → ⊥) }
{
    match mark {
        Mark::Less => Some(Op::Less),
        Mark::AtMost => Some(Op::AtMost),
        Mark::Same => Some(Op::Same),
        Mark::Differ => Some(Op::Differ),
        _ => None,
    }
}

/// The tokens after a minus, where one comes first.
pub(crate) fn minus(tokens: &[Token]) -> Option<&[Token]>
    ensures some { IfSome result (λ rest. (text : List ℕ) (k : Open) → run (Want k) (lexemes text tokens.now)
        ≡ run (WantAtom (Negates k)) (lexemes text rest.now)) }
    ensures none { IfNone result ((text : List ℕ) (k : Open) → run (Want k) (lexemes text tokens.now)
        ≡ run (WantAtom k) (lexemes text tokens.now)) }
    ensures shorter { IfSome result (λ rest. length rest.now < length tokens.now) }
    ensures kept { IfSome result (λ rest. (text : List ℕ) → AreTokens text tokens.now → AreTokens text rest.now) }
{
    after_mark(Mark::Minus, tokens)
}

/// The tokens after the bracket that opens an index, where one comes first.
pub(crate) fn index(tokens: &[Token]) -> Option<&[Token]>
    ensures some { IfSome result (λ rest. (text n : List ℕ) (k : Open) → run (Called n k) (lexemes text tokens.now)
        ≡ run (whole ByBracket (λ e. Have (E.At n e) k)) (lexemes text rest.now)) }
    ensures none { IfNone result ((text n : List ℕ) (k : Open) → run (Called n k) (lexemes text tokens.now)
        ≡ run (Have (E.Named n) k) (lexemes text tokens.now)) }
    ensures shorter { IfSome result (λ rest. length rest.now < length tokens.now) }
    ensures kept { IfSome result (λ rest. (text : List ℕ) → AreTokens text tokens.now → AreTokens text rest.now) }
{
    after_mark(Mark::OpenBracket, tokens)
}

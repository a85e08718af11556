ghost use Rattle.std.specs.Prelude.{◌≡◌, ◌++◌, OnOk};
ghost use Rattle.cell_tree.specs.Expression.{spelt, at_level, expression_pieces};
ghost use Rattle.cell_tree.specs.Operator.{op_mark};
ghost use Rattle.cell_tree.specs.Pieces.{joined, bracketed, none};

use crate::expression::Expr;
use crate::level::Level;
use crate::words::{write_mark, write_number, write_word};
use cell_lexer::Mark;
use sys_base::{Memory, Op};

/// Writes a whole expression after some white space.
#[cycle(expression)]
pub fn write_expression(out: &mut Vec<u8>, gap: &[u8], expr: &Expr) -> Result<(), Memory>
    ensures { OnOk result (out.new.items ≡ out.old.items ++ joined (expression_pieces gap.now expr.now)) }
{
    match expr {
        Expr::Number(number) => write_number(out, gap, *number),
        Expr::Named(name) => write_word(out, gap, name.bytes()),
        Expr::At(name, index) => {
            write_word(out, gap, name.bytes())?;
            write_index(out, index.get())
        }
        Expr::Negate(operand) => {
            write_mark(out, gap, Mark::Minus)?;
            write_operand(out, b"", operand.get(), Level::Unary.right())
        }
        Expr::Binary(op, left, right) => {
            let level = Level::of(*op);
            write_operand(out, gap, left.get(), level.left())?;
            write_mark(out, b" ", op_mark(*op))?;
            write_operand(out, b" ", right.get(), level.right())
        }
    }
}

/// Writes an index in its brackets.
#[cycle(expression)]
pub fn write_index(out: &mut Vec<u8>, index: &Expr) -> Result<(), Memory>
    ensures { OnOk result (out.new.items ≡ out.old.items ++ joined (bracketed (expression_pieces none index.now))) }
{
    write_mark(out, b"", Mark::OpenBracket)?;
    write_expression(out, b"", index)?;
    write_mark(out, b"", Mark::CloseBracket)
}

/// Writes an operand after some white space, in parentheses unless it fits the loosest level that stands there without.
#[cycle(expression)]
fn write_operand(out: &mut Vec<u8>, gap: &[u8], expr: &Expr, loosest: Level) -> Result<(), Memory>
    ensures { OnOk result (out.new.items ≡ out.old.items ++ joined (at_level loosest (spelt expr.now) gap.now)) }
{
    if level_of(expr).fits(loosest) {
        return write_expression(out, gap, expr);
    }
    write_mark(out, gap, Mark::OpenParen)?;
    write_expression(out, b"", expr)?;
    write_mark(out, b"", Mark::CloseParen)
}

fn level_of(expr: &Expr) -> Level
    ensures { result ≡ (spelt expr.now).level }
{
    match expr {
        Expr::Number(_) | Expr::Named(_) | Expr::At(..) => Level::Atom,
        Expr::Negate(_) => Level::Unary,
        Expr::Binary(op, ..) => Level::of(*op),
    }
}

fn op_mark(op: Op) -> Mark
    ensures { result ≡ op_mark op }
{
    match op {
        Op::Add => Mark::Plus,
        Op::Sub => Mark::Minus,
        Op::Mul => Mark::Star,
        Op::Div => Mark::Slash,
        Op::Rem => Mark::Percent,
        Op::Less => Mark::Less,
        Op::AtMost => Mark::AtMost,
        Op::Same => Mark::Same,
        Op::Differ => Mark::Differ,
    }
}

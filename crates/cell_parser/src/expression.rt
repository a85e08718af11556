ghost use Rattle.std.specs.Prelude.{◌≡◌, ℕ, ◌<◌, ◌≤◌, length, IfOk, IfErr};
ghost use Rattle.cell_parser.specs.Inner.Machine.{Called, Want, WantAtom};
ghost use Rattle.cell_parser.specs.Inner.Reading.{AreTokens, IsOperand, NoOperand, IsWhole, NoWhole, a_term, a_sum, a_whole};

use crate::cursor::{after_mark, expect, next_name, next_number, unexpected};
use crate::fault::Fault;
use crate::names::Names;
use crate::operator::{additive, comparison, index, minus, product};
use cell_lexer::{Mark, Token};
use cell_tree::Expr;
use sqlite_items::Boxed;
use std::alloc::Global;
use sys_base::{Name, Op};

/// A whole expression with this mark after it, and the tokens after that.
#[cycle(expression)]
pub(crate) fn expression<'t, 'a>(
    alloc: Global,
    names: &mut Names<'t>,
    end: Mark,
    text: &'t [u8],
    tokens: &'a [Token],
) -> Result<(Expr, &'a [Token]), Fault>
    requires { AreTokens text.now tokens.now }
    ensures read { IfOk result (λ r. IsWhole text.now end tokens.now r.0 r.1.now) }
    ensures wrong { IfErr result (λ e. NoWhole text.now end tokens.now e) }
    ensures shorter { IfOk result (λ r. length r.1.now < length tokens.now) }
    ensures kept { IfOk result (λ r. AreTokens text.now r.1.now) }
{
    let (value, rest) = whole(alloc, names, text, tokens)?;
    let rest = expect(end, rest)?;
    Ok((value, rest))
}

/// A comparison or a sum, and the tokens after it.
#[cycle(expression)]
fn whole<'t, 'a>(
    alloc: Global,
    names: &mut Names<'t>,
    text: &'t [u8],
    tokens: &'a [Token],
) -> Result<(Expr, &'a [Token]), Fault>
    requires { AreTokens text.now tokens.now }
    ensures read { IfOk result (λ r. IsOperand text.now a_whole tokens.now r.0 r.1.now) }
    ensures wrong { IfErr result (λ e. NoOperand text.now a_whole tokens.now e) }
    ensures shorter { IfOk result (λ r. length r.1.now < length tokens.now) }
    ensures kept { IfOk result (λ r. AreTokens text.now r.1.now) }
{
    let (left, rest) = sum(alloc, names, text, tokens)?;
    match comparison(rest) {
        Some((op, after)) => {
            let (right, next) = sum(alloc, names, text, after)?;
            Ok((binary(alloc, op, left, right)?, next))
        }
        None => Ok((left, rest)),
    }
}

/// A sum, and the tokens after it.
#[cycle(expression)]
fn sum<'t, 'a>(
    alloc: Global,
    names: &mut Names<'t>,
    text: &'t [u8],
    tokens: &'a [Token],
) -> Result<(Expr, &'a [Token]), Fault>
    requires { AreTokens text.now tokens.now }
    ensures read { IfOk result (λ r. IsOperand text.now a_sum tokens.now r.0 r.1.now) }
    ensures wrong { IfErr result (λ e. NoOperand text.now a_sum tokens.now e) }
    ensures shorter { IfOk result (λ r. length r.1.now < length tokens.now) }
    ensures kept { IfOk result (λ r. AreTokens text.now r.1.now) }
{
    let (mut left, mut rest) = term(alloc, names, text, tokens)?;
    'each: while let Some((op, after)) = additive(rest) {
        let (right, next) = term(alloc, names, text, after)?;
        left = binary(alloc, op, left, right)?;
        rest = next;
    }
    Ok((left, rest))
}

/// A term, and the tokens after it.
#[cycle(expression)]
fn term<'t, 'a>(
    alloc: Global,
    names: &mut Names<'t>,
    text: &'t [u8],
    tokens: &'a [Token],
) -> Result<(Expr, &'a [Token]), Fault>
    requires { AreTokens text.now tokens.now }
    ensures read { IfOk result (λ r. IsOperand text.now a_term tokens.now r.0 r.1.now) }
    ensures wrong { IfErr result (λ e. NoOperand text.now a_term tokens.now e) }
    ensures shorter { IfOk result (λ r. length r.1.now < length tokens.now) }
    ensures kept { IfOk result (λ r. AreTokens text.now r.1.now) }
{
    let (mut left, mut rest) = unary(alloc, names, text, tokens)?;
    'each: while let Some((op, after)) = product(rest) {
        let (right, next) = unary(alloc, names, text, after)?;
        left = binary(alloc, op, left, right)?;
        rest = next;
    }
    Ok((left, rest))
}

/// An operand with a minus or without, and the tokens after it.
#[cycle(expression)]
fn unary<'t, 'a>(
    alloc: Global,
    names: &mut Names<'t>,
    text: &'t [u8],
    tokens: &'a [Token],
) -> Result<(Expr, &'a [Token]), Fault>
    requires { AreTokens text.now tokens.now }
    ensures read { IfOk result (λ r. IsOperand text.now Want tokens.now r.0 r.1.now) }
    ensures wrong { IfErr result (λ e. NoOperand text.now Want tokens.now e) }
    ensures shorter { IfOk result (λ r. length r.1.now < length tokens.now) }
    ensures kept { IfOk result (λ r. AreTokens text.now r.1.now) }
{
    match minus(tokens) {
        Some(after) => {
            let (operand, rest) = atom(alloc, names, text, after)?;
            Ok((negate(alloc, operand)?, rest))
        }
        None => atom(alloc, names, text, tokens),
    }
}

/// An operand without a minus, and the tokens after it.
#[cycle(expression)]
fn atom<'t, 'a>(
    alloc: Global,
    names: &mut Names<'t>,
    text: &'t [u8],
    tokens: &'a [Token],
) -> Result<(Expr, &'a [Token]), Fault>
    requires { AreTokens text.now tokens.now }
    ensures read { IfOk result (λ r. IsOperand text.now WantAtom tokens.now r.0 r.1.now) }
    ensures wrong { IfErr result (λ e. NoOperand text.now WantAtom tokens.now e) }
    ensures shorter { IfOk result (λ r. length r.1.now < length tokens.now) }
    ensures kept { IfOk result (λ r. AreTokens text.now r.1.now) }
{
    if let Some((number, rest)) = next_number(tokens) {
        return Ok((Expr::Number(number), rest));
    }
    if let Some((bytes, _, rest)) = next_name(text, tokens) {
        let name = names.named(alloc, bytes)?;
        return called(alloc, names, text, name, rest);
    }
    match after_mark(Mark::OpenParen, tokens) {
        Some(after) => expression(alloc, names, Mark::CloseParen, text, after),
        None => Err(unexpected(tokens)),
    }
}

/// The operand that begins with this name, and the tokens after it.
#[cycle(expression)]
fn called<'t, 'a>(
    alloc: Global,
    names: &mut Names<'t>,
    text: &'t [u8],
    name: Name,
    tokens: &'a [Token],
) -> Result<(Expr, &'a [Token]), Fault>
    requires { AreTokens text.now tokens.now }
    ensures read { IfOk result (λ r. IsOperand text.now (Called name) tokens.now r.0 r.1.now) }
    ensures wrong { IfErr result (λ e. NoOperand text.now (Called name) tokens.now e) }
    ensures shorter { IfOk result (λ r. length r.1.now ≤ length tokens.now) }
    ensures kept { IfOk result (λ r. AreTokens text.now r.1.now) }
{
    match index(tokens) {
        Some(after) => {
            let (value, rest) = expression(alloc, names, Mark::CloseBracket, text, after)?;
            Ok((element(alloc, name, value)?, rest))
        }
        None => Ok((Expr::Named(name), tokens)),
    }
}

fn binary(alloc: Global, op: Op, left: Expr, right: Expr) -> Result<Expr, Fault>
    ensures built { IfOk result (λ e. e ≡ Expr.Binary op left right) }
    ensures wrong { IfErr result (λ e. e ≡ Fault.Memory) }
{
    let left = Boxed::new(alloc, left)?;
    Ok(Expr::Binary(op, left, Boxed::new(alloc, right)?))
}

fn negate(alloc: Global, operand: Expr) -> Result<Expr, Fault>
    ensures built { IfOk result (λ e. e ≡ Expr.Negate operand) }
    ensures wrong { IfErr result (λ e. e ≡ Fault.Memory) }
{
    Ok(Expr::Negate(Boxed::new(alloc, operand)?))
}

fn element(alloc: Global, name: Name, index: Expr) -> Result<Expr, Fault>
    ensures built { IfOk result (λ e. e ≡ Expr.At name index) }
    ensures wrong { IfErr result (λ e. e ≡ Fault.Memory) }
{
    Ok(Expr::At(name, Boxed::new(alloc, index)?))
}

ghost use Rattle.std.specs.Prelude.{◌≡◌, ◌<◌, length, IfOk, IfErr};
ghost use Rattle.cell_lexer.specs.declared.token.Mark.TheVariants as M;
ghost use Rattle.cell_parser.specs.Lexeme.{Marked};
ghost use Rattle.cell_parser.specs.Inner.Machine.{Body, Target, index, write, read, take, emit, loop, choice};
ghost use Rattle.cell_parser.specs.Inner.Reading.{AreTokens, Lacks, IsAct, NoAct, IsKeyed, NoKeyed, IsStatement, NoStatement, IsBody, NoBody, IsBlock, NoBlock, set_state};

use crate::cursor::{
    after_mark, expect, expect_key, name, next_key, next_name, number, unexpected,
};
use crate::expression::expression;
use crate::fault::Fault;
use crate::names::Names;
use cell_lexer::{Key, Mark, Token};
use cell_tree::{Act, Stmt};
use std::alloc::Global;
use sys_base::{Items, Name};

/// Statements up to the brace that ends their block, and the tokens after that.
#[cycle(statement)]
pub(crate) fn body<'t, 'a>(
    alloc: Global,
    names: &mut Names<'t>,
    text: &'t [u8],
    tokens: &'a [Token],
) -> Result<(Items<Stmt>, &'a [Token]), Fault>
    requires { AreTokens text.now tokens.now }
    ensures read { IfOk result (λ r. IsBody text.now tokens.now r.0 r.1.now) }
    ensures wrong { IfErr result (λ e. NoBody text.now tokens.now e) }
    ensures shorter { IfOk result (λ r. length r.1.now < length tokens.now) }
    ensures kept { IfOk result (λ r. AreTokens text.now r.1.now) }
{
    let mut body = Items::new(alloc);
    let mut rest = tokens;
    'each: loop {
        if let Some(after) = after_mark(Mark::CloseBrace, rest) {
            return Ok((body, after));
        }
        let (statement, next) = statement(alloc, names, text, rest)?;
        body.push(statement)?;
        rest = next;
    }
}

/// A block in its braces, and the tokens after it.
#[cycle(statement)]
fn block<'t, 'a>(
    alloc: Global,
    names: &mut Names<'t>,
    text: &'t [u8],
    tokens: &'a [Token],
) -> Result<(Items<Stmt>, &'a [Token]), Fault>
    requires { AreTokens text.now tokens.now }
    ensures read { IfOk result (λ r. IsBlock text.now tokens.now r.0 r.1.now) }
    ensures wrong { IfErr result (λ e. NoBlock text.now tokens.now e) }
    ensures shorter { IfOk result (λ r. length r.1.now < length tokens.now) }
    ensures kept { IfOk result (λ r. AreTokens text.now r.1.now) }
{
    let rest = expect(Mark::OpenBrace, tokens)?;
    body(alloc, names, text, rest)
}

/// A statement, and the tokens after it.
#[cycle(statement)]
fn statement<'t, 'a>(
    alloc: Global,
    names: &mut Names<'t>,
    text: &'t [u8],
    tokens: &'a [Token],
) -> Result<(Stmt, &'a [Token]), Fault>
    requires tokens { AreTokens text.now tokens.now }
    requires goes_on { Lacks text.now (Marked M.CloseBrace) tokens.now }
    ensures read { IfOk result (λ r. IsStatement text.now tokens.now r.0 r.1.now) }
    ensures wrong { IfErr result (λ e. NoStatement text.now tokens.now e) }
    ensures shorter { IfOk result (λ r. length r.1.now < length tokens.now) }
    ensures kept { IfOk result (λ r. AreTokens text.now r.1.now) }
{
    if let Some((bytes, line, after)) = next_name(text, tokens) {
        let name = names.named(alloc, bytes)?;
        let (act, rest) = assignment(alloc, names, text, name, after)?;
        return Ok((Stmt { line, act }, rest));
    }
    match next_key(tokens) {
        Some((key, line, after)) => {
            let (act, rest) = keyed(alloc, names, text, key, after)?;
            Ok((Stmt { line, act }, rest))
        }
        None => Err(unexpected(tokens)),
    }
}

/// What a statement that begins with this keyword does, and the tokens after it.
#[cycle(statement)]
fn keyed<'t, 'a>(
    alloc: Global,
    names: &mut Names<'t>,
    text: &'t [u8],
    key: Key,
    tokens: &'a [Token],
) -> Result<(Act, &'a [Token]), Fault>
    requires { AreTokens text.now tokens.now }
    ensures read { IfOk result (λ r. IsKeyed text.now key tokens.now r.0 r.1.now) }
    ensures wrong { IfErr result (λ e. NoKeyed text.now key tokens.now e) }
    ensures shorter { IfOk result (λ r. length r.1.now < length tokens.now) }
    ensures kept { IfOk result (λ r. AreTokens text.now r.1.now) }
{
    match key {
        Key::Write => write(alloc, names, text, tokens),
        Key::Read => read(alloc, names, text, tokens),
        Key::Take => take(alloc, names, text, tokens),
        Key::Emit => emit(alloc, names, text, tokens),
        Key::For => for_loop(alloc, names, text, tokens),
        Key::If => choice(alloc, names, text, tokens),
        _ => Err(Fault::Unexpected {
            left: tokens.len() + 1,
        }),
    }
}

/// A loop after its keyword, and the tokens after it.
#[cycle(statement)]
fn for_loop<'t, 'a>(
    alloc: Global,
    names: &mut Names<'t>,
    text: &'t [u8],
    tokens: &'a [Token],
) -> Result<(Act, &'a [Token]), Fault>
    requires { AreTokens text.now tokens.now }
    ensures read { IfOk result (λ r. IsAct text.now loop tokens.now r.0 r.1.now) }
    ensures wrong { IfErr result (λ e. NoAct text.now loop tokens.now e) }
    ensures shorter { IfOk result (λ r. length r.1.now < length tokens.now) }
    ensures kept { IfOk result (λ r. AreTokens text.now r.1.now) }
{
    let (counter, rest) = name(alloc, names, text, tokens)?;
    let (turns, rest) = number(rest)?;
    let (body, rest) = block(alloc, names, text, rest)?;
    Ok((
        Act::For {
            counter,
            turns,
            body,
        },
        rest,
    ))
}

/// A choice after its keyword, and the tokens after it.
#[cycle(statement)]
fn choice<'t, 'a>(
    alloc: Global,
    names: &mut Names<'t>,
    text: &'t [u8],
    tokens: &'a [Token],
) -> Result<(Act, &'a [Token]), Fault>
    requires { AreTokens text.now tokens.now }
    ensures read { IfOk result (λ r. IsAct text.now choice tokens.now r.0 r.1.now) }
    ensures wrong { IfErr result (λ e. NoAct text.now choice tokens.now e) }
    ensures shorter { IfOk result (λ r. length r.1.now < length tokens.now) }
    ensures kept { IfOk result (λ r. AreTokens text.now r.1.now) }
{
    let (test, rest) = expression(alloc, names, Mark::OpenBrace, text, tokens)?;
    let (yes, rest) = body(alloc, names, text, rest)?;
    let rest = expect_key(Key::Else, rest)?;
    let (no, rest) = block(alloc, names, text, rest)?;
    Ok((Act::If { test, yes, no }, rest))
}

/// An assignment after the name of its target, and the tokens after it.
fn assignment<'t, 'a>(
    alloc: Global,
    names: &mut Names<'t>,
    text: &'t [u8],
    name: Name,
    tokens: &'a [Token],
) -> Result<(Act, &'a [Token]), Fault>
    requires { AreTokens text.now tokens.now }
    ensures read { IfOk result (λ r. IsAct text.now (λ l b around. Target l name b around) tokens.now r.0 r.1.now) }
    ensures wrong { IfErr result (λ e. NoAct text.now (λ l b around. Target l name b around) tokens.now e) }
    ensures shorter { IfOk result (λ r. length r.1.now < length tokens.now) }
    ensures kept { IfOk result (λ r. AreTokens text.now r.1.now) }
{
    if let Some(after) = after_mark(Mark::Assign, tokens) {
        return set(alloc, names, text, name, after);
    }
    match after_mark(Mark::OpenBracket, tokens) {
        Some(after) => set_at(alloc, names, text, name, after),
        None => Err(unexpected(tokens)),
    }
}

/// An assignment to a variable after its first mark, and the tokens after it.
fn set<'t, 'a>(
    alloc: Global,
    names: &mut Names<'t>,
    text: &'t [u8],
    name: Name,
    tokens: &'a [Token],
) -> Result<(Act, &'a [Token]), Fault>
    requires { AreTokens text.now tokens.now }
    ensures read { IfOk result (λ r. IsAct text.now (set_state name) tokens.now r.0 r.1.now) }
    ensures wrong { IfErr result (λ e. NoAct text.now (set_state name) tokens.now e) }
    ensures shorter { IfOk result (λ r. length r.1.now < length tokens.now) }
    ensures kept { IfOk result (λ r. AreTokens text.now r.1.now) }
{
    let (value, rest) = expression(alloc, names, Mark::Semicolon, text, tokens)?;
    Ok((Act::Set { name, value }, rest))
}

/// An assignment to an element after its first mark, and the tokens after it.
fn set_at<'t, 'a>(
    alloc: Global,
    names: &mut Names<'t>,
    text: &'t [u8],
    name: Name,
    tokens: &'a [Token],
) -> Result<(Act, &'a [Token]), Fault>
    requires { AreTokens text.now tokens.now }
    ensures read { IfOk result (λ r. IsAct text.now (λ l b around. index l name b around) tokens.now r.0 r.1.now) }
    ensures wrong { IfErr result (λ e. NoAct text.now (λ l b around. index l name b around) tokens.now e) }
    ensures shorter { IfOk result (λ r. length r.1.now < length tokens.now) }
    ensures kept { IfOk result (λ r. AreTokens text.now r.1.now) }
{
    let (index, rest) = expression(alloc, names, Mark::CloseBracket, text, tokens)?;
    let rest = expect(Mark::Assign, rest)?;
    let (value, rest) = expression(alloc, names, Mark::Semicolon, text, rest)?;
    Ok((Act::SetAt { name, index, value }, rest))
}

/// What a `write` does, after its keyword, and the tokens after it.
fn write<'t, 'a>(
    alloc: Global,
    names: &mut Names<'t>,
    text: &'t [u8],
    tokens: &'a [Token],
) -> Result<(Act, &'a [Token]), Fault>
    requires { AreTokens text.now tokens.now }
    ensures read { IfOk result (λ r. IsAct text.now write tokens.now r.0 r.1.now) }
    ensures wrong { IfErr result (λ e. NoAct text.now write tokens.now e) }
    ensures shorter { IfOk result (λ r. length r.1.now < length tokens.now) }
    ensures kept { IfOk result (λ r. AreTokens text.now r.1.now) }
{
    let (message, rest) = name(alloc, names, text, tokens)?;
    let (value, rest) = expression(alloc, names, Mark::Semicolon, text, rest)?;
    Ok((Act::Write { message, value }, rest))
}

/// What a `read` does, after its keyword, and the tokens after it.
fn read<'t, 'a>(
    alloc: Global,
    names: &mut Names<'t>,
    text: &'t [u8],
    tokens: &'a [Token],
) -> Result<(Act, &'a [Token]), Fault>
    requires { AreTokens text.now tokens.now }
    ensures read { IfOk result (λ r. IsAct text.now read tokens.now r.0 r.1.now) }
    ensures wrong { IfErr result (λ e. NoAct text.now read tokens.now e) }
    ensures shorter { IfOk result (λ r. length r.1.now < length tokens.now) }
    ensures kept { IfOk result (λ r. AreTokens text.now r.1.now) }
{
    let (message, rest) = name(alloc, names, text, tokens)?;
    let (name, rest) = name(alloc, names, text, rest)?;
    let rest = expect(Mark::Semicolon, rest)?;
    Ok((Act::Read { message, name }, rest))
}

/// What a `take` does, after its keyword, and the tokens after it.
fn take<'t, 'a>(
    alloc: Global,
    names: &mut Names<'t>,
    text: &'t [u8],
    tokens: &'a [Token],
) -> Result<(Act, &'a [Token]), Fault>
    requires { AreTokens text.now tokens.now }
    ensures read { IfOk result (λ r. IsAct text.now take tokens.now r.0 r.1.now) }
    ensures wrong { IfErr result (λ e. NoAct text.now take tokens.now e) }
    ensures shorter { IfOk result (λ r. length r.1.now < length tokens.now) }
    ensures kept { IfOk result (λ r. AreTokens text.now r.1.now) }
{
    let (name, rest) = name(alloc, names, text, tokens)?;
    let rest = expect(Mark::Semicolon, rest)?;
    Ok((Act::Take { name }, rest))
}

/// What an `emit` does, after its keyword, and the tokens after it.
fn emit<'t, 'a>(
    alloc: Global,
    names: &mut Names<'t>,
    text: &'t [u8],
    tokens: &'a [Token],
) -> Result<(Act, &'a [Token]), Fault>
    requires { AreTokens text.now tokens.now }
    ensures read { IfOk result (λ r. IsAct text.now emit tokens.now r.0 r.1.now) }
    ensures wrong { IfErr result (λ e. NoAct text.now emit tokens.now e) }
    ensures shorter { IfOk result (λ r. length r.1.now < length tokens.now) }
    ensures kept { IfOk result (λ r. AreTokens text.now r.1.now) }
{
    let (value, rest) = expression(alloc, names, Mark::Semicolon, text, tokens)?;
    Ok((Act::Emit { value }, rest))
}

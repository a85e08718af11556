ghost use Rattle.std.specs.Prelude.{[], ◌<◌, ◌≤◌, length, IfOk, IfErr};
ghost use Rattle.cell_tree.specs.declared.source.Source.{Source};
ghost use Rattle.cell_tree.specs.declared.source.CellDecl.{CellDecl};
ghost use Rattle.cell_parser.specs.Inner.Declaring.{Comes, Halts, with_vars};
ghost use Rattle.cell_parser.specs.Inner.Machine as Mach;
ghost use Rattle.cell_parser.specs.Inner.Machine.{Links, Messages, Cells, Vars, Body, InCell, with_link, with_message, with_cell, with_var};
ghost use Rattle.cell_parser.specs.Inner.Reading.{AreTokens};

use crate::cursor::{after_key, direction, expect, expect_key, name};
use crate::fault::Fault;
use crate::names::Names;
use crate::parts::{label, length, place, route, setting};
use crate::statement::body;
use cell_lexer::{Key, Mark, Token};
use cell_tree::{CellDecl, LinkDecl, MessageDecl, VarDecl};
use std::alloc::Global;
use sys_base::Items;

/// A `link` line after its first word, which stands on this line of the text, and the tokens after it.
pub(crate) fn link<'a>(
    text: &[u8],
    tokens: &'a [Token],
    line: u32,
) -> Result<(LinkDecl, &'a [Token]), Fault>
    requires { AreTokens text.now tokens.now }
    ensures read { IfOk result
        (λ r. (s : Source) → Comes text.now (Mach.link line s) tokens.now (Links (with_link s r.0)) r.1.now) }
    ensures wrong { IfErr result (λ e. (s : Source) → Halts text.now (Mach.link line s) tokens.now e) }
    ensures shorter { IfOk result (λ r. length r.1.now < length tokens.now) }
    ensures kept { IfOk result (λ r. AreTokens text.now r.1.now) }
{
    let (place, rest) = place(tokens)?;
    let (dir, rest) = direction(text, rest)?;
    let rest = expect_key(Key::Queues, rest)?;
    let (queues, rest) = setting(rest)?;
    let link = LinkDecl {
        place,
        dir,
        queues,
        line,
    };
    Ok((link, rest))
}

/// A `message` line after its first word, which stands on this line of the text, and the tokens after it.
pub(crate) fn message<'t, 'a>(
    alloc: Global,
    names: &mut Names<'t>,
    text: &'t [u8],
    tokens: &'a [Token],
    line: u32,
) -> Result<(MessageDecl, &'a [Token]), Fault>
    requires { AreTokens text.now tokens.now }
    ensures read { IfOk result
        (λ r. (s : Source) → Comes text.now (Mach.message line s) tokens.now (Messages (with_message s r.0)) r.1.now) }
    ensures wrong { IfErr result (λ e. (s : Source) → Halts text.now (Mach.message line s) tokens.now e) }
    ensures shorter { IfOk result (λ r. length r.1.now < length tokens.now) }
    ensures kept { IfOk result (λ r. AreTokens text.now r.1.now) }
{
    let (name, rest) = name(alloc, names, text, tokens)?;
    let rest = expect_key(Key::From, rest)?;
    let (from, rest) = place(rest)?;
    let rest = expect_key(Key::To, rest)?;
    let (to, rest) = place(rest)?;
    let (route, rest) = route(alloc, text, rest)?;
    let (label, rest) = label(rest)?;
    let message = MessageDecl {
        name,
        from,
        to,
        route,
        label,
        line,
    };
    Ok((message, rest))
}

/// A `var` line after its first word, which stands on this line of the text, and the tokens after it.
fn variable<'t, 'a>(
    alloc: Global,
    names: &mut Names<'t>,
    text: &'t [u8],
    tokens: &'a [Token],
    line: u32,
) -> Result<(VarDecl, &'a [Token]), Fault>
    requires { AreTokens text.now tokens.now }
    ensures read { IfOk result
        (λ r. (s : Source) (c : CellDecl)
        → Comes text.now (Mach.variable line s c) tokens.now (Vars s (with_var c r.0)) r.1.now) }
    ensures wrong { IfErr result (λ e. (s : Source) (c : CellDecl)
        → Halts text.now (Mach.variable line s c) tokens.now e) }
    ensures shorter { IfOk result (λ r. length r.1.now < length tokens.now) }
    ensures kept { IfOk result (λ r. AreTokens text.now r.1.now) }
{
    let (name, rest) = name(alloc, names, text, tokens)?;
    let (length, rest) = length(rest)?;
    Ok((VarDecl { name, length, line }, rest))
}

/// The `var` lines that come first, and the tokens after them.
fn variables<'t, 'a>(
    alloc: Global,
    names: &mut Names<'t>,
    text: &'t [u8],
    tokens: &'a [Token],
) -> Result<(Items<VarDecl>, &'a [Token]), Fault>
    requires { AreTokens text.now tokens.now }
    ensures read { IfOk result
        (λ r. (s : Source) (c : CellDecl)
        → Comes text.now (Vars s c) tokens.now (Body [] (InCell s (with_vars c r.0))) r.1.now) }
    ensures wrong { IfErr result (λ e. (s : Source) (c : CellDecl) → Halts text.now (Vars s c) tokens.now e) }
    ensures shorter { IfOk result (λ r. length r.1.now ≤ length tokens.now) }
    ensures kept { IfOk result (λ r. AreTokens text.now r.1.now) }
{
    let mut vars = Items::new(alloc);
    let mut rest = tokens;
    'each: while let Some((line, after)) = after_key(Key::Var, rest) {
        let (var, next) = variable(alloc, names, text, after, line)?;
        vars.push(var)?;
        rest = next;
    }
    Ok((vars, rest))
}

/// A cell after its first word, which stands on this line of the text, and the tokens after it.
pub(crate) fn cell<'t, 'a>(
    alloc: Global,
    names: &mut Names<'t>,
    text: &'t [u8],
    tokens: &'a [Token],
    line: u32,
) -> Result<(CellDecl, &'a [Token]), Fault>
    requires { AreTokens text.now tokens.now }
    ensures read { IfOk result
        (λ r. (s : Source) → Comes text.now (Mach.cell line s) tokens.now (Cells (with_cell s r.0)) r.1.now) }
    ensures wrong { IfErr result (λ e. (s : Source) → Halts text.now (Mach.cell line s) tokens.now e) }
    ensures shorter { IfOk result (λ r. length r.1.now < length tokens.now) }
    ensures kept { IfOk result (λ r. AreTokens text.now r.1.now) }
{
    let (place, rest) = place(tokens)?;
    let rest = expect(Mark::OpenBrace, rest)?;
    let (vars, rest) = variables(alloc, names, text, rest)?;
    let (body, rest) = body(alloc, names, text, rest)?;
    let cell = CellDecl {
        place,
        vars,
        body,
        line,
    };
    Ok((cell, rest))
}

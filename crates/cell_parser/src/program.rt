ghost use Rattle.std.specs.Prelude.{◌≡◌, ℕ, List, Ok, IfOk, IfErr};
ghost use Rattle.cell_tree.specs.declared.source.Source.{Source};
ghost use Rattle.cell_parser.specs.Inner.Declaring.{Comes, Halts, with_links, with_messages, with_cells};
ghost use Rattle.cell_parser.specs.Lexeme.{lexemes};
ghost use Rattle.cell_parser.specs.Inner.Machine.{Buffer, Links, Messages, Cells, run, start};
ghost use Rattle.cell_parser.specs.Inner.Reading.{AreTokens};

use crate::cursor::{after_key, expect_x, keyword, number, unexpected};
use crate::declaration::{cell, link, message};
use crate::fault::Fault;
use crate::names::Names;
use crate::parts::setting;
use cell_lexer::{Key, Token};
use cell_tree::{CellDecl, LinkDecl, MessageDecl, Source};
use std::alloc::Global;
use sys_base::Items;

/// The source that the tokens are.
pub(crate) fn program(alloc: Global, text: &[u8], tokens: &[Token]) -> Result<Source, Fault>
    requires { AreTokens text.now tokens.now }
    ensures read { IfOk result (λ s. run start (lexemes text.now tokens.now) ≡ Ok s) }
    ensures wrong { IfErr result (λ e. Halts text.now start tokens.now e) }
{
    let (array_line, rest) = keyword(Key::Array, tokens)?;
    let (rows, rest) = number(rest)?;
    let rest = expect_x(text, rest)?;
    let (cols, rest) = setting(rest)?;
    let (queues_line, rest) = keyword(Key::Queues, rest)?;
    let (queues, rest) = setting(rest)?;
    let (buffer, buffer_line, rest) = buffer(rest)?;
    let (links, rest) = links(alloc, text, rest)?;
    let mut names = Names::new(alloc);
    let (messages, rest) = messages(alloc, &mut names, text, rest)?;
    let cells = cells(alloc, &mut names, text, rest)?;
    Ok(Source {
        rows,
        cols,
        array_line,
        queues,
        queues_line,
        buffer,
        buffer_line,
        links,
        messages,
        cells,
    })
}

/// The number and the line of the `buffer` line that comes first, or 0 and 0 where none does, and the tokens after
/// it.
fn buffer(tokens: &[Token]) -> Result<(u64, u32, &[Token]), Fault>
    ensures read { IfOk result (λ r. (text : List ℕ) (f : ℕ → ℕ → Source)
        → Comes text (Buffer f) tokens.now (Links (f r.0 r.1)) r.2.now) }
    ensures wrong { IfErr result (λ e. (text : List ℕ) (f : ℕ → ℕ → Source) → Halts text (Buffer f) tokens.now e) }
    ensures kept { IfOk result (λ r. (text : List ℕ) → AreTokens text tokens.now → AreTokens text r.2.now) }
{
    if let Some((line, rest)) = after_key(Key::Buffer, tokens) {
        let (buffer, rest) = setting(rest)?;
        return Ok((buffer, line, rest));
    }
    Ok((0, 0, tokens))
}

/// The `link` lines that come first, and the tokens after them.
fn links<'a>(
    alloc: Global,
    text: &[u8],
    tokens: &'a [Token],
) -> Result<(Items<LinkDecl>, &'a [Token]), Fault>
    requires { AreTokens text.now tokens.now }
    ensures read { IfOk result
        (λ r. (s : Source) → Comes text.now (Links s) tokens.now (Messages (with_links s r.0)) r.1.now) }
    ensures wrong { IfErr result (λ e. (s : Source) → Halts text.now (Links s) tokens.now e) }
    ensures kept { IfOk result (λ r. AreTokens text.now r.1.now) }
{
    let mut links = Items::new(alloc);
    let mut rest = tokens;
    'each: while let Some((line, after)) = after_key(Key::Link, rest) {
        let (link, next) = link(text, after, line)?;
        links.push(link)?;
        rest = next;
    }
    Ok((links, rest))
}

/// The `message` lines that come first, and the tokens after them.
fn messages<'t, 'a>(
    alloc: Global,
    names: &mut Names<'t>,
    text: &'t [u8],
    tokens: &'a [Token],
) -> Result<(Items<MessageDecl>, &'a [Token]), Fault>
    requires { AreTokens text.now tokens.now }
    ensures read { IfOk result
        (λ r. (s : Source) → Comes text.now (Messages s) tokens.now (Cells (with_messages s r.0)) r.1.now) }
    ensures wrong { IfErr result (λ e. (s : Source) → Halts text.now (Messages s) tokens.now e) }
    ensures kept { IfOk result (λ r. AreTokens text.now r.1.now) }
{
    let mut messages = Items::new(alloc);
    let mut rest = tokens;
    'each: while let Some((line, after)) = after_key(Key::Message, rest) {
        let (message, next) = message(alloc, names, text, after, line)?;
        messages.push(message)?;
        rest = next;
    }
    Ok((messages, rest))
}

/// The cells, after which no token may stand.
fn cells<'t>(
    alloc: Global,
    names: &mut Names<'t>,
    text: &'t [u8],
    tokens: &[Token],
) -> Result<Items<CellDecl>, Fault>
    requires { AreTokens text.now tokens.now }
    ensures read { IfOk result
        (λ cells. (s : Source) → run (Cells s) (lexemes text.now tokens.now) ≡ Ok (with_cells s cells)) }
    ensures wrong { IfErr result (λ e. (s : Source) → Halts text.now (Cells s) tokens.now e) }
{
    let mut cells = Items::new(alloc);
    let mut rest = tokens;
    'each: while let Some((line, after)) = after_key(Key::Cell, rest) {
        let (cell, next) = cell(alloc, names, text, after, line)?;
        cells.push(cell)?;
        rest = next;
    }
    if rest.is_empty() {
        Ok(cells)
    } else {
        Err(unexpected(rest))
    }
}

ghost use Rattle.std.specs.Prelude.{◌≡◌, ◌+◌, ◌++◌, OnOk, IfOk, map};
ghost use Rattle.std.specs.List.{flat_map};
ghost use Rattle.cell_tree.specs.Pieces.{joined};
ghost use Rattle.cell_tree.specs.Statement.{act_step, block, for_pieces, if_pieces, statement_pieces};
ghost use Rattle.cell_tree.specs.declared.statement.Act.TheOpen.{Act-F};

use crate::expression::Expr;
use crate::print_expression::{write_expression, write_index};
use crate::statement::{Act, Stmt};
use crate::words::{
    write_key, write_key_line, write_line, write_mark, write_mark_line, write_number, write_word,
};
use cell_lexer::{Key, Mark};
use sys_base::{Memory, Name};

/// Writes statements that are inside this many open blocks.
#[cycle(statement)]
pub fn write_statements(out: &mut Vec<u8>, depth: usize, statements: &[Stmt]) -> Result<(), Memory>
    ensures { OnOk result (out.new.items ≡ out.old.items
        ++ joined (flat_map (λ s. statement_pieces s depth) statements.now)) }
{
    for statement in statements {
        write_statement(out, depth, statement)?;
    }
    Ok(())
}

#[cycle(statement)]
fn write_statement(out: &mut Vec<u8>, depth: usize, statement: &Stmt) -> Result<(), Memory>
    ensures { OnOk result (out.new.items ≡ out.old.items ++ joined (statement_pieces statement.now depth)) }
{
    match &statement.act {
        Act::Set { name, value } => write_set(out, depth, name, value),
        Act::SetAt { name, index, value } => write_set_at(out, depth, name, index, value),
        Act::Write { message, value } => write_write(out, depth, message, value),
        Act::Read { message, name } => write_read(out, depth, message, name),
        Act::Take { name } => write_take(out, depth, name),
        Act::Emit { value } => write_emit(out, depth, value),
        Act::For {
            counter,
            turns,
            body,
        } => {
            write_for(out, depth, counter, *turns)?;
            write_block(out, depth, body.as_slice())
        }
        Act::If { test, yes, no } => {
            write_if(out, depth, test)?;
            write_block(out, depth, yes.as_slice())?;
            write_key(out, b" ", Key::Else)?;
            write_block(out, depth, no.as_slice())
        }
    }
}

/// Writes a block that is inside this many others.
#[cycle(statement)]
fn write_block(out: &mut Vec<u8>, depth: usize, body: &[Stmt]) -> Result<(), Memory>
    ensures { OnOk result (out.new.items ≡ out.old.items ++ joined (block (map statement_pieces body.now) depth)) }
{
    let inner = deeper(depth)?;
    write_mark(out, b" ", Mark::OpenBrace)?;
    write_statements(out, inner, body)?;
    write_mark_line(out, depth, Mark::CloseBrace)
}

/// The depth inside one more block.
fn deeper(depth: usize) -> Result<usize, Memory>
    ensures { IfOk result (λ inner. inner ≡ depth + 1) }
{
    // No memory holds blocks nested deeper than a number, nor their indentation.
    depth.checked_add(1).ok_or(Memory)
}

/// Writes a `for` line before its brace.
fn write_for(out: &mut Vec<u8>, depth: usize, counter: &Name, turns: u64) -> Result<(), Memory>
    ensures { OnOk result (out.new.items ≡ out.old.items ++ joined (for_pieces counter.now turns depth)) }
{
    write_key_line(out, depth, Key::For)?;
    write_word(out, b" ", counter.bytes())?;
    write_number(out, b" ", turns)
}

/// Writes an `if` line before its brace.
fn write_if(out: &mut Vec<u8>, depth: usize, test: &Expr) -> Result<(), Memory>
    ensures { OnOk result (out.new.items ≡ out.old.items ++ joined (if_pieces test.now depth)) }
{
    write_key_line(out, depth, Key::If)?;
    write_expression(out, b" ", test)
}

fn write_set(out: &mut Vec<u8>, depth: usize, name: &Name, value: &Expr) -> Result<(), Memory>
    ensures { OnOk result (out.new.items ≡ out.old.items ++ joined (act_step (Act-F.Set name.now value.now) depth)) }
{
    write_line(out, depth, name.bytes())?;
    write_mark(out, b" ", Mark::Assign)?;
    write_expression(out, b" ", value)?;
    write_mark(out, b"", Mark::Semicolon)
}

fn write_set_at(
    out: &mut Vec<u8>,
    depth: usize,
    name: &Name,
    index: &Expr,
    value: &Expr,
) -> Result<(), Memory>
    ensures { OnOk result (out.new.items ≡ out.old.items
        ++ joined (act_step (Act-F.SetAt name.now index.now value.now) depth)) }
{
    write_line(out, depth, name.bytes())?;
    write_index(out, index)?;
    write_mark(out, b" ", Mark::Assign)?;
    write_expression(out, b" ", value)?;
    write_mark(out, b"", Mark::Semicolon)
}

fn write_write(out: &mut Vec<u8>, depth: usize, message: &Name, value: &Expr) -> Result<(), Memory>
    ensures { OnOk result (out.new.items ≡ out.old.items
        ++ joined (act_step (Act-F.Write message.now value.now) depth)) }
{
    write_key_line(out, depth, Key::Write)?;
    write_word(out, b" ", message.bytes())?;
    write_expression(out, b" ", value)?;
    write_mark(out, b"", Mark::Semicolon)
}

fn write_read(out: &mut Vec<u8>, depth: usize, message: &Name, name: &Name) -> Result<(), Memory>
    ensures { OnOk result (out.new.items ≡ out.old.items ++ joined (act_step (Act-F.Read message.now name.now) depth)) }
{
    write_key_line(out, depth, Key::Read)?;
    write_word(out, b" ", message.bytes())?;
    write_word(out, b" ", name.bytes())?;
    write_mark(out, b"", Mark::Semicolon)
}

fn write_take(out: &mut Vec<u8>, depth: usize, name: &Name) -> Result<(), Memory>
    ensures { OnOk result (out.new.items ≡ out.old.items ++ joined (act_step (Act-F.Take name.now) depth)) }
{
    write_key_line(out, depth, Key::Take)?;
    write_word(out, b" ", name.bytes())?;
    write_mark(out, b"", Mark::Semicolon)
}

fn write_emit(out: &mut Vec<u8>, depth: usize, value: &Expr) -> Result<(), Memory>
    ensures { OnOk result (out.new.items ≡ out.old.items ++ joined (act_step (Act-F.Emit value.now) depth)) }
{
    write_key_line(out, depth, Key::Emit)?;
    write_expression(out, b" ", value)?;
    write_mark(out, b"", Mark::Semicolon)
}

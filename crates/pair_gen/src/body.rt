ghost use Rattle.std.specs.Prelude.{◌≡◌, ◌+◌, ◌*◌, ◌^◌, ◌<◌, ◌≤◌, ◌++◌, [], ◌∷◌, length, IfOk, OnOk};
ghost use Rattle.std.specs.List.{All};
ghost use Rattle.pair_gen.specs.Generated.{cell_acts, emit_act, on_lines, pair_acts, read_act, set_act, write_act};

use crate::names::Names;
use crate::square::{receiver, sender};
use cell_tree::{Act, Expr, Stmt};
use sqlite_items::Boxed;
use std::alloc::Global;
use sys_base::{Items, Memory, Op};

/// The statements of a cell, the first of which is on this line, where these are the messages of the pairs.
pub(crate) fn body(
    alloc: Global,
    names: &Names,
    drawn: &[u8],
    cell: u8,
    line: u32,
) -> Result<Items<Stmt>, Memory>
    requires known { All (λ message. message < 24) drawn.now }
    requires room { line + 2 * length drawn.now + 2 < 2 ^ 32 }
    ensures is { IfOk result (λ body. body ≡ on_lines line (cell_acts drawn.now cell)) }
    ensures count { IfOk result (λ body. length body ≡ length (cell_acts drawn.now cell)) }
    ensures few { IfOk result (λ body. length body ≤ 2 + 2 * length drawn.now) }
{
    let mut body = Items::new(alloc);
    add(&mut body, line, set(names, cell)?)?;
    for message in drawn {
        add_pair(alloc, names, &mut body, line, cell, *message)?;
    }
    add(&mut body, line, emit(names)?)?;
    Ok(body)
}

/// Adds what a cell does in the pair of a message to its statements, the first of which is on this line.
fn add_pair(
    alloc: Global,
    names: &Names,
    body: &mut Items<Stmt>,
    line: u32,
    cell: u8,
    message: u8,
) -> Result<(), Memory>
    requires known { message < 24 }
    requires room { line + length body.old + 2 < 2 ^ 32 }
    ensures acts { OnOk result (body.new ≡ body.old ++ on_lines (line + length body.old) (pair_acts cell message)) }
    ensures few { OnOk result (length body.new ≤ length body.old + 2) }
{
    if sender(message) == cell {
        add(body, line, write(alloc, names, message)?)?;
    }
    if receiver(message) == cell {
        add(body, line, read(names, message)?)?;
    }
    Ok(())
}

/// Adds a statement to others, the first of which is on this line.
fn add(body: &mut Items<Stmt>, first: u32, act: Act) -> Result<(), Memory>
    requires { first + length body.old < 2 ^ 32 }
    ensures { OnOk result (body.new ≡ body.old ++ on_lines (first + length body.old) (act ∷ [])) }
{
    let line = first + body.len() as u32;
    body.push(Stmt { line, act })?;
    Ok(())
}

/// `x = c;`, where c is the cell.
fn set(names: &Names, cell: u8) -> Result<Act, Memory>
    ensures { IfOk result (λ act. act ≡ set_act cell) }
{
    Ok(Act::Set {
        name: names.variable()?,
        value: Expr::Number(u64::from(cell)),
    })
}

/// `write m x + 1;`
fn write(alloc: Global, names: &Names, message: u8) -> Result<Act, Memory>
    requires { message < 24 }
    ensures { IfOk result (λ act. act ≡ write_act message) }
{
    let variable = Boxed::new(alloc, Expr::Named(names.variable()?))?;
    let one = Boxed::new(alloc, Expr::Number(1))?;
    Ok(Act::Write {
        message: names.message(message)?,
        value: Expr::Binary(Op::Add, variable, one),
    })
}

/// `read m x;`
fn read(names: &Names, message: u8) -> Result<Act, Memory>
    requires { message < 24 }
    ensures { IfOk result (λ act. act ≡ read_act message) }
{
    Ok(Act::Read {
        message: names.message(message)?,
        name: names.variable()?,
    })
}

/// `emit x;`
fn emit(names: &Names) -> Result<Act, Memory>
    ensures { IfOk result (λ act. act ≡ emit_act) }
{
    Ok(Act::Emit {
        value: Expr::Named(names.variable()?),
    })
}

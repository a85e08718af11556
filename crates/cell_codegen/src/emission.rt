ghost use Rattle.std.specs.Prelude.{◌≡◌, ◌<◌, ◌+◌, ◌^◌, ◌++◌, ◌∷◌, [], length, IfOk, OnOk};
ghost use Rattle.cell_types.specs.Typed.{expression_of, action_of, block_of};
ghost use Rattle.cell_codegen.specs.Bounds.{SmallExpression, SmallAction, SmallBlock, HasRoom, HasRoomFor};
ghost use Rattle.cell_codegen.specs.Emission.{expression_code, action_code, block_code, body_code};

use cell_code::Instr;
use cell_types::{TypedAct, TypedExpr, TypedStmt};
use std::alloc::Global;
use sys_base::Memory;

/// The code of statements, with `halt` at its end.
pub(crate) fn emit_body(alloc: Global, body: &[TypedStmt]) -> Result<Vec<Instr>, Memory>
    requires small { SmallBlock (block_of body.now) }
    requires room { length (body_code (block_of body.now)) < 2 ^ 32 }
    ensures { IfOk result (λ code. code.items ≡ body_code (block_of body.now)) }
{
    let mut code = Vec::new(alloc);
    emit_block(&mut code, body)?;
    put(&mut code, Instr::Halt)?;
    Ok(code)
}

/// Appends the code of statements.
#[cycle(emit)]
fn emit_block(code: &mut Vec<Instr>, body: &[TypedStmt]) -> Result<(), Memory>
    requires small { SmallBlock (block_of body.now) }
    requires room { HasRoomFor code.old.items (block_of body.now) }
    ensures { OnOk result (code.new.items ≡ code.old.items ++ block_code (length code.old.items) (block_of body.now)) }
{
    for statement in body {
        emit_action(code, statement.line, &statement.act)?;
    }
    Ok(())
}

/// Appends the code of what a statement on a line does. Targets are written where their addresses are known.
#[cycle(emit)]
fn emit_action(code: &mut Vec<Instr>, line: u32, act: &TypedAct) -> Result<(), Memory>
    requires small { SmallAction (action_of act.now) }
    requires room { HasRoom code.old.items line (action_of act.now) }
    ensures { OnOk result (code.new.items ≡ code.old.items ++ action_code (length code.old.items) line
        (action_of act.now)) }
{
    match act {
        TypedAct::Set { word, value } => {
            emit_expression(code, line, value)?;
            put(code, Instr::Store(*word))
        }
        TypedAct::SetAt {
            base,
            len,
            index,
            value,
        } => {
            emit_expression(code, line, index)?;
            emit_expression(code, line, value)?;
            put(
                code,
                Instr::StoreAt {
                    base: *base,
                    len: *len,
                    line,
                },
            )
        }
        TypedAct::Write { message, value } => {
            emit_expression(code, line, value)?;
            put(code, Instr::Write(*message))
        }
        TypedAct::Read { message, word } => put(
            code,
            Instr::Read {
                message: *message,
                word: *word,
            },
        ),
        TypedAct::Take { word } => put(code, Instr::Take(*word)),
        TypedAct::Emit { value } => {
            emit_expression(code, line, value)?;
            put(code, Instr::Emit)
        }
        TypedAct::For {
            counter,
            turns,
            body,
        } => {
            let (counter, turns) = (*counter, *turns as u32);
            let start = code.len();
            put(
                code,
                Instr::Loop {
                    counter,
                    turns,
                    exit: 0,
                },
            )?;
            emit_block(code, body.as_slice())?;
            put(
                code,
                Instr::Next {
                    counter,
                    turns,
                    body: start as u32 + 1,
                },
            )?;
            let exit = code.len() as u32;
            code[start] = Instr::Loop {
                counter,
                turns,
                exit,
            };
            Ok(())
        }
        TypedAct::If { test, yes, no } => {
            emit_expression(code, line, test)?;
            let branch = code.len();
            put(code, Instr::IfZero(0))?;
            emit_block(code, yes.as_slice())?;
            let jump = code.len();
            put(code, Instr::Jump(0))?;
            let second = code.len() as u32;
            code[branch] = Instr::IfZero(second);
            emit_block(code, no.as_slice())?;
            let end = code.len() as u32;
            code[jump] = Instr::Jump(end);
            Ok(())
        }
    }
}

/// Appends the code of an expression of a statement on a line.
fn emit_expression(code: &mut Vec<Instr>, line: u32, expression: &TypedExpr) -> Result<(), Memory>
    requires { SmallExpression (expression_of expression.now) }
    ensures { OnOk result (code.new.items ≡ code.old.items ++ expression_code line (expression_of expression.now)) }
{
    match expression {
        TypedExpr::Number(number) => put(code, Instr::Push(*number as i64)),
        TypedExpr::Word(word) => put(code, Instr::Load(*word)),
        TypedExpr::Counter(counter) => put(code, Instr::Counter(*counter)),
        TypedExpr::At { base, len, index } => {
            emit_expression(code, line, index)?;
            put(
                code,
                Instr::LoadAt {
                    base: *base,
                    len: *len,
                    line,
                },
            )
        }
        TypedExpr::Negate(operand) => {
            emit_expression(code, line, operand)?;
            put(code, Instr::Neg { line })
        }
        TypedExpr::Binary(op, left, right) => {
            emit_expression(code, line, left)?;
            emit_expression(code, line, right)?;
            put(code, Instr::Bin { op: *op, line })
        }
    }
}

/// Appends one instruction.
fn put(code: &mut Vec<Instr>, instr: Instr) -> Result<(), Memory>
    ensures { OnOk result (code.new.items ≡ code.old.items ++ instr ∷ []) }
{
    code.push(instr)?;
    Ok(())
}

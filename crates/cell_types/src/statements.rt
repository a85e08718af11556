ghost use Rattle.std.specs.Prelude.{◌-◌, ◌≡◌, ◌+◌, ◌≤◌, length, OnOk};
ghost use Rattle.cell_lexer.specs.declared.limits.TheConstants.{OPEN_BRACES};
ghost use Rattle.cell_types.specs.Depth.{action_loops, block_loops};
ghost use Rattle.cell_types.specs.Resolved.{resolved_action, resolved_block};
ghost use Rattle.cell_types.specs.bodies.Scopes.{Resolves, scope_in, written_action};
ghost use Rattle.cell_types.specs.Statics.{action_faults, block_faults};
ghost use Rattle.cell_types.specs.Typed.{action_of, block_of};
ghost use Rattle.cell_types.specs.Written.{written_block, written_expression};
ghost use Rattle.cell_types.specs.Written as W;

use crate::error::StaticError;
use crate::expressions::resolve_expression;
use crate::scope::Scope;
use crate::statement::{TypedAct, TypedStmt};
use cell_tree::{Act, Expr, Stmt};
use std::alloc::Global;
use sys_base::{Items, Name};

/// The statements, their names resolved.
#[cycle(statement)]
pub(crate) fn resolve_block(
    alloc: Global,
    scope: &mut Scope,
    body: Items<Stmt>,
) -> Result<Vec<TypedStmt>, StaticError>
    requires { length (scope_in scope.old).counters
        + block_loops (resolved_block (scope_in scope.old) (written_block body)) ≤ OPEN_BRACES - 1 }
    ensures block { Resolves (block_faults (scope_in scope.old) (written_block body)) (λ typed. block_of typed.items)
        (resolved_block (scope_in scope.old) (written_block body)) result }
    ensures scope { OnOk result (scope_in scope.new ≡ scope_in scope.old) }
{
    let mut typed = Vec::with_capacity(alloc, body.len())?;
    for statement in body.into_vec() {
        let Stmt { line, act } = statement;
        let act = resolve_act(alloc, scope, line, act)?;
        typed.push(TypedStmt { line, act })?;
    }
    Ok(typed)
}

/// What a statement on this line does, its names resolved.
#[cycle(statement)]
pub(crate) fn resolve_act(
    alloc: Global,
    scope: &mut Scope,
    line: u32,
    act: Act,
) -> Result<TypedAct, StaticError>
    requires { length (scope_in scope.old).counters
        + action_loops (resolved_action (scope_in scope.old) (written_action act)) ≤ OPEN_BRACES - 1 }
    ensures action { Resolves (action_faults (scope_in scope.old) line (written_action act)) action_of
        (resolved_action (scope_in scope.old) (written_action act)) result }
    ensures scope { OnOk result (scope_in scope.new ≡ scope_in scope.old) }
{
    match act {
        Act::Set { name, value } => set(alloc, scope, line, &name, value),
        Act::SetAt { name, index, value } => set_at(alloc, scope, line, &name, index, value),
        Act::Write { message, value } => write(alloc, scope, line, &message, value),
        Act::Read { message, name } => read(scope, line, &message, &name),
        Act::Take { name } => take(scope, line, &name),
        Act::Emit { value } => emit(alloc, scope, line, value),
        Act::For {
            counter,
            turns,
            body,
        } => {
            let counter = scope.enter(line, counter, turns)?;
            let body = resolve_block(alloc, scope, body)?;
            scope.leave();
            Ok(TypedAct::For {
                counter,
                turns,
                body,
            })
        }
        Act::If { test, yes, no } => {
            let test = resolve_expression(alloc, scope, line, test)?;
            let yes = resolve_block(alloc, scope, yes)?;
            let no = resolve_block(alloc, scope, no)?;
            Ok(TypedAct::If { test, yes, no })
        }
    }
}

/// An assignment to a variable.
fn set(
    alloc: Global,
    scope: &Scope,
    line: u32,
    name: &Name,
    value: Expr,
) -> Result<TypedAct, StaticError>
    ensures { Resolves (action_faults (scope_in scope.now) line (W.Set name.now (written_expression value))) action_of
        (resolved_action (scope_in scope.now) (W.Set name.now (written_expression value))) result }
{
    let word = scope.variable(line, name)?;
    let value = resolve_expression(alloc, scope, line, value)?;
    Ok(TypedAct::Set { word, value })
}

/// An assignment to an element of an array.
fn set_at(
    alloc: Global,
    scope: &Scope,
    line: u32,
    name: &Name,
    index: Expr,
    value: Expr,
) -> Result<TypedAct, StaticError>
    ensures { Resolves (action_faults (scope_in scope.now) line
        (W.SetAt name.now (written_expression index) (written_expression value))) action_of
        (resolved_action (scope_in scope.now)
        (W.SetAt name.now (written_expression index) (written_expression value))) result }
{
    let (base, len) = scope.array(line, name)?;
    let index = resolve_expression(alloc, scope, line, index)?;
    let value = resolve_expression(alloc, scope, line, value)?;
    Ok(TypedAct::SetAt {
        base,
        len,
        index,
        value,
    })
}

/// A `write`.
fn write(
    alloc: Global,
    scope: &Scope,
    line: u32,
    message: &Name,
    value: Expr,
) -> Result<TypedAct, StaticError>
    ensures { Resolves (action_faults (scope_in scope.now) line (W.Write message.now (written_expression value)))
        action_of (resolved_action (scope_in scope.now) (W.Write message.now (written_expression value))) result }
{
    let message = scope.message(line, true, message)?;
    let value = resolve_expression(alloc, scope, line, value)?;
    Ok(TypedAct::Write { message, value })
}

/// A `read`.
fn read(scope: &Scope, line: u32, message: &Name, name: &Name) -> Result<TypedAct, StaticError>
    ensures { Resolves (action_faults (scope_in scope.now) line (W.Read message.now name.now)) action_of
        (resolved_action (scope_in scope.now) (W.Read message.now name.now)) result }
{
    let message = scope.message(line, false, message)?;
    let word = scope.variable(line, name)?;
    Ok(TypedAct::Read { message, word })
}

/// A `take`.
fn take(scope: &Scope, line: u32, name: &Name) -> Result<TypedAct, StaticError>
    ensures { Resolves (action_faults (scope_in scope.now) line (W.Take name.now)) action_of
        (resolved_action (scope_in scope.now) (W.Take name.now)) result }
{
    let word = scope.variable(line, name)?;
    Ok(TypedAct::Take { word })
}

/// An `emit`.
fn emit(alloc: Global, scope: &Scope, line: u32, value: Expr) -> Result<TypedAct, StaticError>
    ensures { Resolves (action_faults (scope_in scope.now) line (W.Emit (written_expression value))) action_of
        (resolved_action (scope_in scope.now) (W.Emit (written_expression value))) result }
{
    let value = resolve_expression(alloc, scope, line, value)?;
    Ok(TypedAct::Emit { value })
}

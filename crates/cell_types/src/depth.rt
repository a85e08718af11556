ghost use Rattle.std.specs.Prelude.{◌-◌, ◌≡◌, ◌≤◌};
ghost use Rattle.cell_lexer.specs.declared.limits.TheConstants.{PIECE_TOKENS, OPEN_BRACES};
ghost use Rattle.cell_types.specs.Depth.{expression_stack, action_stack, block_stack, action_loops, block_loops};
ghost use Rattle.cell_types.specs.Typed.{expression_of, action_of, block_of};

use crate::expression::TypedExpr;
use crate::statement::{TypedAct, TypedStmt};

/// The deepest stack that an expression needs.
fn expression_stack(expr: &TypedExpr) -> u16
    requires { expression_stack (expression_of expr.now) ≤ PIECE_TOKENS }
    ensures { result ≡ expression_stack (expression_of expr.now) }
{
    match expr {
        TypedExpr::Number(_) | TypedExpr::Word(_) | TypedExpr::Counter(_) => 1,
        TypedExpr::At { index, .. } => expression_stack(index),
        TypedExpr::Negate(operand) => expression_stack(operand),
        TypedExpr::Binary(_, left, right) => expression_stack(left).max(
            1 + expression_stack(right),
        ),
    }
}

/// The deepest stack that some of these statements needs.
#[cycle(stack)]
fn block_stack(body: &[TypedStmt]) -> u16
    requires { block_stack (block_of body.now) ≤ PIECE_TOKENS }
    ensures { result ≡ block_stack (block_of body.now) }
{
    let mut deepest = 0;
    for statement in body {
        deepest = action_stack(&statement.act).max(deepest);
    }
    deepest
}

/// The deepest stack that a statement needs.
#[cycle(stack)]
pub(crate) fn action_stack(act: &TypedAct) -> u16
    requires { action_stack (action_of act.now) ≤ PIECE_TOKENS }
    ensures { result ≡ action_stack (action_of act.now) }
{
    match act {
        TypedAct::Set { value, .. } | TypedAct::Write { value, .. } | TypedAct::Emit { value } => {
            expression_stack(value)
        }
        TypedAct::SetAt { index, value, .. } => {
            expression_stack(index).max(1 + expression_stack(value))
        }
        TypedAct::Read { .. } | TypedAct::Take { .. } => 0,
        TypedAct::For { body, .. } => block_stack(body),
        TypedAct::If { test, yes, no } => {
            expression_stack(test).max(block_stack(yes).max(block_stack(no)))
        }
    }
}

/// How many loops of these statements stand inside one another at most.
#[cycle(loops)]
fn block_loops(body: &[TypedStmt]) -> u8
    requires { block_loops (block_of body.now) ≤ OPEN_BRACES - 1 }
    ensures { result ≡ block_loops (block_of body.now) }
{
    let mut deepest = 0;
    for statement in body {
        deepest = action_loops(&statement.act).max(deepest);
    }
    deepest
}

/// How many loops of a statement stand inside one another at most.
#[cycle(loops)]
pub(crate) fn action_loops(act: &TypedAct) -> u8
    requires { action_loops (action_of act.now) ≤ OPEN_BRACES - 1 }
    ensures { result ≡ action_loops (action_of act.now) }
{
    match act {
        TypedAct::For { body, .. } => 1 + block_loops(body),
        TypedAct::If { yes, no, .. } => block_loops(yes).max(block_loops(no)),
        _ => 0,
    }
}

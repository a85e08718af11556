ghost use Rattle.std.specs.Prelude.{ℕ, ◌+◌, ◌*◌, ◌≤◌, max};
ghost use Rattle.cell_types.specs.Cost.{IsLimited, expression_cost, action_cost, block_cost};
ghost use Rattle.cell_types.specs.Typed.{action_of, block_of, expression_of};

use crate::expression::TypedExpr;
use crate::statement::{TypedAct, TypedStmt};
use sys_base::STEPS;

/// The cost of statements.
#[cycle(cost)]
fn statements_cost(body: &[TypedStmt]) -> Option<u32>
    ensures { IsLimited (block_cost (block_of body.now)) result }
{
    let mut cost = 0;
    for statement in body {
        cost = sum(cost, act_cost(&statement.act)?)?;
    }
    Some(cost)
}

/// The cost of what a statement does.
#[cycle(cost)]
pub(crate) fn act_cost(act: &TypedAct) -> Option<u32>
    ensures { IsLimited (action_cost (action_of act.now)) result }
{
    match act {
        TypedAct::Set { value, .. } => sum(expr_cost(value)?, 1),
        TypedAct::SetAt { index, value, .. } => sum(sum(expr_cost(index)?, expr_cost(value)?)?, 1),
        TypedAct::Write { value, .. } => sum(expr_cost(value)?, 1),
        TypedAct::Read { .. } => Some(1),
        TypedAct::Take { .. } => Some(1),
        TypedAct::Emit { value } => sum(expr_cost(value)?, 1),
        TypedAct::For { turns, body, .. } => {
            if *turns == 0 {
                return Some(1);
            }
            loop_cost(*turns, statements_cost(body.as_slice())?)
        }
        TypedAct::If { test, yes, no } => {
            let test = expr_cost(test)?;
            let first = statements_cost(yes.as_slice())?;
            branch_cost(test, first, statements_cost(no.as_slice())?)
        }
    }
}

/// The cost of an expression.
fn expr_cost(expression: &TypedExpr) -> Option<u32>
    ensures { IsLimited (expression_cost (expression_of expression.now)) result }
{
    match expression {
        TypedExpr::Number(_) => Some(1),
        TypedExpr::Word(_) => Some(1),
        TypedExpr::Counter(_) => Some(1),
        TypedExpr::At { index, .. } => sum(expr_cost(index)?, 1),
        TypedExpr::Negate(operand) => sum(expr_cost(operand)?, 1),
        TypedExpr::Binary(_, left, right) => sum(sum(expr_cost(left)?, expr_cost(right)?)?, 1),
    }
}

/// The cost of a loop that has a turn, by that of its body.
fn loop_cost(turns: u64, body: u32) -> Option<u32>
    requires { 1 ≤ turns }
    ensures { IsLimited (1 + turns * (body + 1)) result }
{
    let turn = u64::from(body) + 1;
    limited(turns.checked_mul(turn)?.checked_add(1)?)
}

/// The cost of an `if`, by those of its test and its arms. The first arm ends by a jump over the second.
fn branch_cost(test: u32, first: u32, second: u32) -> Option<u32>
    ensures { IsLimited (test + 1 + max (first + 1) second) result }
{
    let arm = (u64::from(first) + 1).max(u64::from(second));
    limited(u64::from(test) + 1 + arm)
}

/// The sum of two costs.
pub(crate) fn sum(first: u32, second: u32) -> Option<u32>
    ensures { IsLimited (first + second) result }
{
    limited(u64::from(first) + u64::from(second))
}

/// A cost, where it is within the limit.
fn limited(cost: u64) -> Option<u32>
    ensures { IsLimited cost result }
{
    if cost > u64::from(STEPS) {
        None
    } else {
        Some(cost as u32)
    }
}

/// The sum of two costs, each of which may be above the limit.
pub(crate) fn both(first: Option<u32>, second: Option<u32>) -> Option<u32>
    ensures { (m n : ℕ) → IsLimited m first → IsLimited n second → IsLimited (m + n) result }
{
    sum(first?, second?)
}

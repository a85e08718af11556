ghost use Rattle.cell_types.specs.Resolved.{resolved_expression};
ghost use Rattle.cell_types.specs.bodies.Scopes.{Resolves, scope_in};
ghost use Rattle.cell_types.specs.Statics.{expression_faults};
ghost use Rattle.cell_types.specs.Typed.{expression_of};
ghost use Rattle.cell_types.specs.Written.{written_expression};

use crate::error::StaticError;
use crate::expression::TypedExpr;
use crate::scope::Scope;
use cell_tree::Expr;
use std::alloc::Global;

/// The expression of a statement on this line, its names resolved.
pub(crate) fn resolve_expression(
    alloc: Global,
    scope: &Scope,
    line: u32,
    expr: Expr,
) -> Result<TypedExpr, StaticError>
    ensures { Resolves (expression_faults (scope_in scope.now) line (written_expression expr)) expression_of
        (resolved_expression (scope_in scope.now) (written_expression expr)) result }
{
    match expr {
        Expr::Number(number) => Ok(TypedExpr::Number(number)),
        Expr::Named(name) => scope.value(line, &name),
        Expr::At(name, index) => {
            let (base, len) = scope.array(line, &name)?;
            let index = resolve_expression(alloc, scope, line, index.into_inner())?;
            Ok(TypedExpr::At {
                base,
                len,
                index: Box::new(alloc, index)?,
            })
        }
        Expr::Negate(operand) => {
            let operand = resolve_expression(alloc, scope, line, operand.into_inner())?;
            Ok(TypedExpr::Negate(Box::new(alloc, operand)?))
        }
        Expr::Binary(op, left, right) => {
            let left = resolve_expression(alloc, scope, line, left.into_inner())?;
            let right = resolve_expression(alloc, scope, line, right.into_inner())?;
            Ok(TypedExpr::Binary(op, Box::new(alloc, left)?, Box::new(alloc, right)?))
        }
    }
}

//! Bounds of the values of expressions.
ghost use Rattle.std.specs.Prelude.{IfSome};
ghost use Rattle.array_tree.specs.Trees.{expression_of};
ghost use Rattle.touch_bounds.specs.Ranges.{bounds_of, IsNoted};

use crate::interval::{Interval, applied, minus};
use crate::ranges::Ranges;
use array_tree::Expr;

/// Bounds of the values of an expression, for any values of the variables between theirs. `None` if the expression reads an
/// array, or its arithmetic may wrap.
pub fn interval_of(expr: &Expr, ranges: &Ranges) -> Option<Interval>
    ensures { IfSome result (λ noted. IsNoted (bounds_of ranges.now) (expression_of expr.now) noted) }
{
    match expr {
        Expr::Number(number) => Some(Interval::exactly(*number)),
        Expr::Var(name) => Some(ranges.get(name)),
        Expr::Read(_, _) => None,
        Expr::Neg(operand) => minus(interval_of(operand, ranges)?),
        Expr::Binary(op, left, right) => {
            applied(*op, interval_of(left, ranges)?, interval_of(right, ranges)?)
        }
    }
}

//! The values of expressions.
ghost use Rattle.std.specs.Prelude.{◌≡◌};
ghost use Rattle.array_tree.specs.Trees.{expression_of};
ghost use Rattle.array_meaning.specs.Stores.{is_dynamic, value_of};
ghost use Rattle.array_meaning.specs.Values.{applied, wrapping_minus};
ghost use Rattle.array_eval.specs.Views.{vars_of};

use crate::cells::{Cells, cell};
use crate::layout::Layout;
use crate::scope::Scope;
use array_tree::{Expr, Op};

/// The value of an expression.
pub fn evaluate<C: Cells>(layout: &Layout, expr: &Expr, scope: &Scope, cells: &C) -> i64
    ensures { result ≡ value_of layout.now (vars_of scope.now) (expression_of expr.now)
        (C.values cells.now) }
{
    match expr {
        Expr::Number(number) => *number,
        Expr::Var(name) => scope.get(name),
        Expr::Read(array, index) => {
            let place = evaluate(layout, index, scope, cells);
            cells.read(cell(layout, array, index, place))
        }
        Expr::Neg(operand) => negate(evaluate(layout, operand, scope, cells)),
        Expr::Binary(op, left, right) => {
            let a = evaluate(layout, left, scope, cells);
            let b = evaluate(layout, right, scope, cells);
            apply(*op, a, b)
        }
    }
}

/// Whether an index contains an array read.
pub fn is_dynamic(index: &Expr) -> bool
    ensures { result ≡ is_dynamic (expression_of index.now) }
{
    match index {
        Expr::Number(_) | Expr::Var(_) => false,
        Expr::Read(_, _) => true,
        Expr::Neg(operand) => is_dynamic(operand),
        Expr::Binary(_, left, right) => is_dynamic(left) || is_dynamic(right),
    }
}

/// The value of an operator.
#[inline(always)]
pub(crate) fn apply(op: Op, a: i64, b: i64) -> i64
    ensures { result ≡ applied op a b }
{
    match op {
        Op::Add => a.wrapping_add(b),
        Op::Sub => a.wrapping_sub(b),
        Op::Mul => a.wrapping_mul(b),
        Op::Div => { if b == 0 { 0 } else { a.wrapping_div(b) } }
        Op::Rem => { if b == 0 { 0 } else { a.wrapping_rem(b) } }
        Op::Less => i64::from(a < b),
        Op::Greater => i64::from(a > b),
        Op::LessEq => i64::from(a <= b),
        Op::GreaterEq => i64::from(a >= b),
        Op::Equal => i64::from(a == b),
        Op::NotEqual => i64::from(a != b),
    }
}

/// The minus sign.
pub(crate) fn negate(a: i64) -> i64
    ensures { result ≡ wrapping_minus a }
{
    a.wrapping_neg()
}

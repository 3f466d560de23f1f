//! Expressions to text.

ghost use Rattle.std.specs.Prelude.{◌≡◌, OnOk};
ghost use Rattle.array_tree.specs.Trees.{expression_of};
ghost use Rattle.array_print.specs.Texts.{expression_text, grouped_text, groups_left, strength_of, op_text};
ghost use Rattle.array_print.specs.Printers.{Adds};

use crate::printer::Printer;
use array_lang::binding;
use array_tree::{Expr, Op};
use std::alloc::AllocError;

// How strongly a minus sign binds.
const MINUS: u8 = 4;

impl Printer {
    /// Adds the text of an expression.
    #[cycle(operands)]
    pub(crate) fn expression(&mut self, expression: &Expr) -> Result<(), AllocError>
        ensures { OnOk result (Adds self.old
            (expression_text (expression_of expression.now)) self.new) }
    {
        match expression {
            Expr::Number(value) => self.number(*value),
            Expr::Var(name) => self.add(name.as_bytes()),
            Expr::Read(array, index) => {
                self.add(array.as_bytes())?;
                self.add(b"[".as_slice())?;
                self.expression(index)?;
                self.add(b"]".as_slice())
            }
            Expr::Neg(operand) => {
                self.add(b"-".as_slice())?;
                self.operand(operand, strength(operand) < MINUS)
            }
            Expr::Binary(op, left, right) => {
                self.operand(left, is_left_grouped(*op, left))?;
                self.add(op_bytes(*op))?;
                self.operand(right, strength(right) <= binding(*op).number())
            }
        }
    }

    // Adds the text of an operand, in parentheses or not.
    #[cycle(operands)]
    fn operand(&mut self, operand: &Expr, is_grouped: bool) -> Result<(), AllocError>
        ensures { OnOk result (Adds self.old
            (grouped_text is_grouped (expression_text (expression_of operand.now))) self.new) }
    {
        if !is_grouped {
            return self.expression(operand);
        }
        self.add(b"(".as_slice())?;
        self.expression(operand)?;
        self.add(b")".as_slice())
    }
}

fn is_left_grouped(op: Op, left: &Expr) -> bool
    ensures { result ≡ groups_left op (expression_of left.now) }
{
    let around = binding(op).number();
    strength(left) < around || around == 1 && strength(left) == 1
}

fn strength(expression: &Expr) -> u8
    ensures { result ≡ strength_of (expression_of expression.now) }
{
    match expression {
        Expr::Binary(op, _, _) => binding(*op).number(),
        Expr::Neg(_) => MINUS,
        _ => 5,
    }
}

fn op_bytes(op: Op) -> &'static [u8]
    ensures { result.now ≡ op_text op }
{
    match op {
        Op::Add => b" + ",
        Op::Sub => b" - ",
        Op::Mul => b" * ",
        Op::Div => b" / ",
        Op::Rem => b" % ",
        Op::Less => b" < ",
        Op::Greater => b" > ",
        Op::LessEq => b" <= ",
        Op::GreaterEq => b" >= ",
        Op::Equal => b" == ",
        Op::NotEqual => b" != ",
    }
}

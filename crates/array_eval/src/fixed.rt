//! Loops whose body is one assignment to a cell that no turn changes.
ghost use Rattle.std.specs.Prelude.{◌≡◌, IfSome, ℕ};
ghost use Rattle.array_tree.specs.Trees.{Sequence, Assign, followed, ended, Read, Binary, expression_of, sequence_of};
ghost use Rattle.array_tree.specs.declared.tree.Op.TheVariants as op;
ghost use Rattle.array_tree.specs.Equal.{expression_eq};
ghost use Rattle.array_meaning.specs.Work.{sequence_work, loop};
ghost use Rattle.array_eval.specs.Traces.{traced};
ghost use Rattle.array_eval.specs.Views.{vars_of};
ghost use Rattle.array_eval.specs.Fixed.{names_var, after_turn, IsTurnOf};

use crate::cells::{NoCells, cell};
use crate::layout::Layout;
use crate::marked_store::MarkedStore;
use crate::scope::Scope;
use crate::value::{evaluate, is_dynamic};
use array_tree::{Block, Expr, Name, Op, Stmt};

/// The least number of turns of a loop whose cell is computed before its first turn.
///
/// Why: computing it before walks the index up to four times, in a turn once or twice.
const LEAST_TURNS: i64 = 4;

/// The turns of a loop whose body is one assignment, to a cell that is the same in each turn.
///
/// Why: the cell is computed once, before the first turn. Otherwise a sum `x[e] = x[e] + v` computes its cell twice in each
/// turn.
#[derive(Clone, Copy, Debug, Drop)]
pub(crate) enum FixedTurn<'s> {
    /// It writes a value to the cell.
    Sets { cell: usize, value: &'s Expr },
    /// It adds a value to the cell.
    Adds { cell: usize, value: &'s Expr },
}

impl<'s> FixedTurn<'s> {
    /// The turn of a loop with this body and this variable, if the loop has enough turns and its body is one assignment
    /// whose index reads no cell and doesn't name the variable.
    pub(crate) fn of(
        layout: &Layout,
        body: &'s Block,
        var: &Name,
        turns: i64,
        scope: &Scope,
    ) -> Option<FixedTurn<'s>>
        ensures { IfSome result (λ turn.
            IsTurnOf layout.now turn var.now (vars_of scope.now) (sequence_of body.now)) }
    {
        if turns < LEAST_TURNS || body.statements.len() != 1 {
            return None;
        }
        match &body.statements[0] {
            Stmt::Assign {
                array,
                index,
                value,
                ..
            } => FixedTurn::of_assignment(layout, array, index, value, var, scope),
            _ => None,
        }
    }

    // The turn of a loop whose body is this assignment.
    fn of_assignment(
        layout: &Layout,
        array: &Name,
        index: &Expr,
        value: &'s Expr,
        var: &Name,
        scope: &Scope,
    ) -> Option<FixedTurn<'s>>
        ensures { IfSome result (λ turn. (line : ℕ) →
            IsTurnOf layout.now turn var.now (vars_of scope.now)
            (followed (Assign line array.now (expression_of index.now) (expression_of value.now))
            ended)) }
    {
        if is_dynamic(index) || names_var(index, var) {
            return None;
        }
        let cell = cell(
            layout,
            array,
            index,
            evaluate(layout, index, scope, &NoCells),
        );
        match added_to(array, index, value) {
            Some(value) => Some(FixedTurn::Adds { cell, value }),
            None => Some(FixedTurn::Sets { cell, value }),
        }
    }

    /// Whether the value reads cells, apart from the one that is written.
    pub(crate) fn reads_cells(self) -> bool {
        match self {
            FixedTurn::Sets { value, .. } | FixedTurn::Adds { value, .. } => is_dynamic(value),
        }
    }

    /// Runs one turn.
    fn run(self, layout: &Layout, turn: &Scope, store: &mut MarkedStore)
        ensures { store.new ≡ after_turn layout.now (vars_of turn.now) self.entry store.old }
    {
        match self {
            FixedTurn::Sets { cell, value } => {
                let number = evaluate(layout, value, turn, store);
                store.write(cell, number);
            }
            FixedTurn::Adds { cell, value } => {
                let number = evaluate(layout, value, turn, store);
                let sum = store.read(cell).wrapping_add(number);
                store.write(cell, sum);
            }
        }
    }

    /// Runs a turn for each number from `low` to before `high`, with that number as the variable.
    pub(crate) fn run_all<'t>(
        self,
        layout: &Layout,
        var: &'t Name,
        low: i64,
        high: i64,
        scope: &'t Scope<'t>,
        store: &mut MarkedStore,
    )
        ensures { (body : Sequence) → IsTurnOf layout.now self.entry var.now (vars_of scope.now) body
            → store.new ≡ traced layout.now
            (loop var.now low high (sequence_work body) (vars_of scope.now)) store.old }
    {
        for number in low..high {
            let turn = Scope::Turn {
                name: var,
                value: number,
                outer: scope,
            };
            self.run(layout, &turn, store);
        }
    }
}

// Whether an expression names a variable.
fn names_var(expr: &Expr, var: &Name) -> bool
    ensures { result ≡ names_var (expression_of expr.now) var.now }
{
    match expr {
        Expr::Number(_) => false,
        Expr::Var(name) => var == name,
        Expr::Read(_, index) => names_var(index, var),
        Expr::Neg(operand) => names_var(operand, var),
        Expr::Binary(_, left, right) => names_var(left, var) || names_var(right, var),
    }
}

// The value that is added to the cell of an index, if the expression is `array[index] + ..`.
fn added_to<'s>(array: &Name, index: &Expr, value: &'s Expr) -> Option<&'s Expr>
    ensures { IfSome result (λ right. expression_of value.now
        ≡ Binary op.Add (Read array.now (expression_of index.now)) (expression_of right.now)) }
{
    let Expr::Binary(op, left, right) = value else {
        return None;
    };
    match op {
        Op::Add => {
            if is_read(left, array, index) {
                Some(right)
            } else {
                None
            }
        }
        _ => None,
    }
}

// Whether an expression reads the cell of an index.
fn is_read(expr: &Expr, array: &Name, index: &Expr) -> bool
    ensures { result ≡ expression_eq (expression_of expr.now)
        (Read array.now (expression_of index.now)) }
{
    match expr {
        Expr::Read(read, place) => read == array && **place == *index,
        _ => false,
    }
}

//! Expressions inside one loop, with their names resolved.
ghost use Rattle.std.specs.Prelude.{◌≡◌, ◌∷◌, ℤ, IfOk};
ghost use Rattle.array_tree.specs.Trees.{expression_of};
ghost use Rattle.array_meaning.specs.Stores.{Store, at_cell, cell_of, is_dynamic, var_of};
ghost use Rattle.array_meaning.specs.Values.{applied, wrapping_minus};
ghost use Rattle.array_eval.specs.Resolved.{cell_in, result_of, IsResolved};
ghost use Rattle.array_eval.specs.Views.{vars_of};

use crate::cells::place_outside;
use crate::layout::Layout;
use crate::marked_store::MarkedStore;
use crate::scope::Scope;
use crate::value::{apply, is_dynamic, negate};
use array_tree::{Expr, Name, Op};
use std::alloc::{AllocError, Global};

/// The cells of an array, for one of its indexes.
///
/// Why it has the last index and no length: there is no array without cells.
#[derive(Clone, Copy, Debug, Drop)]
pub(crate) struct Extent {
    /// The first cell.
    pub(crate) base: u16,
    /// The array's last index.
    pub(crate) last: u16,
    /// Whether the index is dynamic, so that its value is reduced.
    pub(crate) is_dynamic: bool,
}

/// An expression inside a loop: each array by its cells, each variable of a loop around by its value.
#[derive(Debug, Drop)]
pub(crate) enum Resolved {
    /// A number.
    Number(i64),
    /// The number of the turn.
    Turn,
    /// A cell that is the same in each turn.
    Cell(usize),
    /// The cell of an array at an index.
    Read(Extent, Box<Resolved>),
    /// The minus sign.
    Neg(Box<Resolved>),
    Binary(Op, Box<Resolved>, Box<Resolved>),
}

impl Extent {
    /// The cells of an array, for this index.
    pub(crate) fn of(layout: &Layout, array: &Name, index: &Expr) -> Extent
        ensures { (value : ℤ) → cell_in result value
            ≡ cell_of layout.now array.now (is_dynamic (expression_of index.now)) value }
    {
        let place = layout.place_of(array);
        Extent {
            base: place.base as u16,
            last: (place.length - 1) as u16,
            is_dynamic: is_dynamic(index),
        }
    }

    /// The cell for a value of the index.
    #[inline(always)]
    pub(crate) fn cell(self, value: i64) -> usize
        ensures { result ≡ cell_in self value }
    {
        if 0 <= value && value <= i64::from(self.last) {
            return usize::from(self.base) + value as usize;
        }
        usize::from(self.base) + place_outside(usize::from(self.last) + 1, self.is_dynamic, value)
    }
}

/// An expression resolved, for the body of a loop with this variable.
///
/// # Errors
///
/// `AllocError` if an allocation fails.
///
/// # Memory
///
/// It allocates the nodes below the first one.
pub(crate) fn resolve(
    alloc: Global,
    layout: &Layout,
    expr: &Expr,
    var: &Name,
    scope: &Scope,
) -> Result<Resolved, AllocError>
    ensures { IfOk result (λ resolved. IsResolved layout.now var.now (vars_of scope.now) resolved
        (expression_of expr.now)) }
{
    match expr {
        Expr::Number(number) => Ok(Resolved::Number(*number)),
        Expr::Var(name) => Ok(resolved_var(name, var, scope)),
        Expr::Read(array, index) => {
            let place = resolve(alloc, layout, index, var, scope)?;
            read(alloc, Extent::of(layout, array, index), place)
        }
        Expr::Neg(operand) => negated(alloc, resolve(alloc, layout, operand, var, scope)?),
        Expr::Binary(op, left, right) => {
            let left = resolve(alloc, layout, left, var, scope)?;
            let right = resolve(alloc, layout, right, var, scope)?;
            joined(alloc, *op, left, right)
        }
    }
}

// A variable resolved.
fn resolved_var(name: &Name, var: &Name, scope: &Scope) -> Resolved
    ensures { (turn : ℤ) (store : Store) → result_of result turn store
        ≡ var_of ((var.now, turn) ∷ vars_of scope.now) name.now }
{
    if var == name {
        Resolved::Turn
    } else {
        Resolved::Number(scope.get(name))
    }
}

// The cell of an array at an index.
fn read(alloc: Global, extent: Extent, index: Resolved) -> Result<Resolved, AllocError>
    ensures { IfOk result (λ resolved. (turn : ℤ) (store : Store) → result_of resolved turn store
        ≡ at_cell store (cell_in extent (result_of index turn store))) }
{
    match index {
        Resolved::Number(number) => Ok(Resolved::Cell(extent.cell(number))),
        index => Ok(Resolved::Read(extent, Box::new(alloc, index)?)),
    }
}

// The minus sign before an operand.
fn negated(alloc: Global, operand: Resolved) -> Result<Resolved, AllocError>
    ensures { IfOk result (λ resolved. (turn : ℤ) (store : Store) → result_of resolved turn store
        ≡ wrapping_minus (result_of operand turn store)) }
{
    match operand {
        Resolved::Number(number) => Ok(Resolved::Number(negate(number))),
        operand => Ok(Resolved::Neg(Box::new(alloc, operand)?)),
    }
}

// An operator between two operands.
fn joined(alloc: Global, op: Op, left: Resolved, right: Resolved) -> Result<Resolved, AllocError>
    ensures { IfOk result (λ resolved. (turn : ℤ) (store : Store) → result_of resolved turn store
        ≡ applied op (result_of left turn store) (result_of right turn store)) }
{
    if let (Resolved::Number(a), Resolved::Number(b)) = (&left, &right) {
        return Ok(Resolved::Number(apply(op, *a, *b)));
    }
    let left = Box::new(alloc, left)?;
    Ok(Resolved::Binary(op, left, Box::new(alloc, right)?))
}

impl Resolved {
    /// The value in the turn of a number.
    #[cycle(value)]
    #[inline(always)]
    pub(crate) fn value(&self, turn: i64, store: &MarkedStore) -> i64
        ensures { result ≡ result_of self.now turn store.now.cells }
    {
        match self {
            Resolved::Number(number) => *number,
            Resolved::Turn => turn,
            Resolved::Cell(cell) => store.read(*cell),
            _ => self.computed(turn, store),
        }
    }

    // The same.
    #[cycle(value)]
    #[inline(never)]
    fn computed(&self, turn: i64, store: &MarkedStore) -> i64
        ensures { result ≡ result_of self.now turn store.now.cells }
    {
        match self {
            Resolved::Number(number) => *number,
            Resolved::Turn => turn,
            Resolved::Cell(cell) => store.read(*cell),
            Resolved::Read(extent, index) => store.read(extent.cell(index.value(turn, store))),
            Resolved::Neg(operand) => negate(operand.value(turn, store)),
            Resolved::Binary(op, left, right) => {
                let a = left.value(turn, store);
                let b = right.value(turn, store);
                apply(*op, a, b)
            }
        }
    }
}

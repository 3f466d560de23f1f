//! The positions of a program's arrays.
ghost use Rattle.std.specs.Prelude.{◌≡◌, ◌⊎◌, ◌≤◌, ◌<◌, ◌+◌, IfOk, [], length, map, drop, replicate, unsigned_abs};
ghost use Rattle.array_tree.specs.Trees.{declarations_of, declaration_of};
ghost use Rattle.array_meaning.specs.Bounds.{most_cells};
ghost use Rattle.array_meaning.specs.Stores.{arrays_of, AreSized, HaveCells, base_of, length_of, cells_of};
ghost use Rattle.array_eval.specs.Layouts.{slot_count, number_of, slot_of, AreFirsts, BeginsAt};

use crate::cells::count_cells;
use array_tree::{ArrayDecl, Arrays, Name};
use std::alloc::{AllocError, Global};
use std::marker::Model;

/// The number of slots.
const SLOTS: usize = 256;

/// So many arrays are searched one by one without a table. Why: each job makes its table, and few jobs have much to search.
const FEW: usize = 4;

/// The position of an array: its index among the arrays, its first cell, and its number of cells.
#[derive(Clone, Copy, Debug, Drop)]
pub struct Place {
    pub number: usize,
    pub base: usize,
    pub length: usize,
}

// The first array of a slot: its index among the arrays, and its first cell.
#[derive(Clone, Copy, Debug, Drop)]
struct First {
    number: u16,
    base: u16,
}

/// The arrays of a program, and the first array of each slot of digests, if there are more than four arrays. After the slot's
/// first array, the others are searched one by one, since names of one slot may differ. So with names chosen to collide, a
/// search compares with each declaration.
///
/// The table has 1 KB and is made in one pass. Why each job makes its own: a job's public fields have the arrays alone.
///
/// Contracts see a layout as the arrays. The type's invariant: each array has a cell, and all arrays together have at most
/// 4,096.
#[derive(Debug, Drop)]
pub struct Layout<'p> {
    // It allocates what a run resolves.
    alloc: Global,
    arrays: &'p Arrays,
    // The first array of each slot, or nothing if there are few arrays.
    firsts: Vec<First>,
    cells: usize,
}

impl<'p> Model for Layout<'p> {
    ghost use Rattle.std.specs.Coded.{codes};
    ghost use Rattle.array_tree.specs.contracts.tree.Arrays as arrays_type;
    ghost use Rattle.array_tree.specs.Trees.{declarations_of};
    ghost use Rattle.array_meaning.specs.Stores.{Arrays, arrays_of};
    ghost use Rattle.array_eval.specs.Layouts.{IsLaidOut};

    ghost Value = { Arrays };

    ghost coded = { Prim.hlevel (codes, arrays_type.the_row.coded) };

    ghost view = { λ layout. arrays_of (declarations_of layout.arrays.now) };

    ghost invariant = { λ layout.
        IsLaidOut (arrays_of (declarations_of layout.arrays.now)) layout.firsts.items
        layout.cells };
}

impl<'p> Layout<'p> {
    /// The layout of these arrays. Each must have a cell, and all together at most 4,096.
    ///
    /// # Errors
    ///
    /// `AllocError` if an allocation fails.
    ///
    /// # Memory
    ///
    /// It allocates 1 KB if there are more than four arrays.
    pub fn new(alloc: Global, arrays: &'p Arrays) -> Result<Layout<'p>, AllocError>
        requires { AreSized (arrays_of (declarations_of arrays.now)) }
        ensures { IfOk result (λ layout. layout ≡ arrays_of (declarations_of arrays.now)) }
    {
        let cells = count_cells(arrays);
        let firsts = firsts_of(alloc, &arrays.declarations, cells as u16)?;
        Ok(Layout {
            alloc,
            arrays,
            firsts,
            cells,
        })
    }

    /// The position of the array with a name. If there is none, it is one cell after the others.
    pub fn place_of(&self, name: &Name) -> Place
        ensures number { result.number ≡ number_of self.now name.now }
        ensures base { result.base ≡ base_of self.now name.now }
        ensures length { result.length ≡ length_of self.now name.now }
        ensures base_small { result.base ≤ most_cells }
        ensures length_small { result.length ≤ most_cells }
        ensures some { 0 < result.length }
    {
        let first = self.first_of(name);
        let declarations = declared_from(&self.arrays.declarations, usize::from(first.number));
        place_among(declarations, name, first)
    }

    // The array at which the search for a name begins.
    fn first_of(&self, name: &Name) -> First
        ensures { BeginsAt self.now name.now result }
    {
        if self.firsts.is_empty() {
            return First { number: 0, base: 0 };
        }
        self.firsts[slot(name)]
    }

    /// The allocator.
    pub(crate) fn alloc(&self) -> Global {
        self.alloc
    }

    /// The arrays themselves.
    pub fn arrays(&self) -> &'p Arrays
        ensures arrays { arrays_of (declarations_of result.now) ≡ self.now }
        ensures sized { AreSized self.now }
    {
        self.arrays
    }

    /// The number of arrays.
    pub fn count(&self) -> usize
        ensures { result ≡ length self.now }
    {
        self.arrays.declarations.len()
    }

    /// The number of cells of the arrays.
    pub fn cells(&self) -> usize
        ensures cells { result ≡ cells_of self.now }
        ensures small { result ≤ most_cells }
    {
        self.cells
    }
}

// The first array of each slot, or nothing if there are few arrays.
fn firsts_of(
    alloc: Global,
    declarations: &[ArrayDecl],
    cells: u16,
) -> Result<Vec<First>, AllocError>
    requires cells { cells ≡ cells_of (arrays_of (map declaration_of declarations.now)) }
    requires count { length declarations.now ≤ most_cells }
    ensures { IfOk result (λ firsts. (firsts.items ≡ [])
        ⊎ AreFirsts 0 0 (arrays_of (map declaration_of declarations.now)) firsts.items) }
{
    if declarations.len() <= FEW {
        return Ok(Vec::new(alloc));
    }
    let none = First {
        number: declarations.len() as u16,
        base: cells,
    };
    let mut firsts = table_of(alloc, none)?;
    put_firsts(declarations, cells, &mut firsts);
    Ok(firsts)
}

// A table with this in each slot.
fn table_of(alloc: Global, first: First) -> Result<Vec<First>, AllocError>
    ensures { IfOk result (λ firsts. firsts.items ≡ replicate slot_count first) }
{
    vec![in alloc; first; SLOTS]
}

// The slot of a name.
fn slot(name: &Name) -> usize
    ensures slot { result ≡ slot_of name.now }
    ensures inside { result < slot_count }
{
    (name.digest() % SLOTS as u64) as usize
}

// The declarations from one on.
fn declared_from(declarations: &[ArrayDecl], from: usize) -> &[ArrayDecl]
    requires { from ≤ length declarations.now }
    ensures { result.now ≡ drop from declarations.now }
{
    &declarations[from..]
}

// The number of cells of an array.
fn cells_in(array: &ArrayDecl) -> usize
    ensures { result ≡ unsigned_abs array.now.length }
{
    array.length.unsigned_abs() as usize
}

// The position of the array with a name among declarations. The arrays before a slot's first array come before them.
fn place_among(declarations: &[ArrayDecl], name: &Name, first: First) -> Place
    requires each { HaveCells (arrays_of (map declaration_of declarations.now)) }
    requires whole { first.base
        + cells_of (arrays_of (map declaration_of declarations.now)) ≤ most_cells }
    ensures number { result.number
        ≡ first.number + number_of (arrays_of (map declaration_of declarations.now)) name.now }
    ensures base { result.base
        ≡ first.base + base_of (arrays_of (map declaration_of declarations.now)) name.now }
    ensures length { result.length
        ≡ length_of (arrays_of (map declaration_of declarations.now)) name.now }
    ensures base_small { result.base ≤ most_cells }
    ensures length_small { result.length ≤ most_cells }
    ensures some { 0 < result.length }
{
    let mut number = usize::from(first.number);
    let mut base = usize::from(first.base);
    for array in declarations {
        let length = array.length.unsigned_abs() as usize;
        if array.name == *name {
            return Place {
                number,
                base,
                length,
            };
        }
        number += 1;
        base += length;
    }
    Place {
        number,
        base,
        length: 1,
    }
}

// Puts each array into its slot, the last one first, so that an earlier array replaces a later one.
fn put_firsts(declarations: &[ArrayDecl], cells: u16, firsts: &mut [First])
    requires cells { cells ≡ cells_of (arrays_of (map declaration_of declarations.now)) }
    requires count { length declarations.now ≤ most_cells }
    requires none { firsts.old
        ≡ replicate slot_count (record { number = length declarations.now; base = cells }) }
    ensures { AreFirsts 0 0 (arrays_of (map declaration_of declarations.now)) firsts.new }
{
    let mut left = declarations.len();
    let mut base = cells;
    while left > 0 {
        left -= 1;
        let array = &declarations[left];
        base -= cells_in(array) as u16;
        firsts[slot(&array.name)] = First {
            number: left as u16,
            base,
        };
    }
}

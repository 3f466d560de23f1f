//! The four lines of a run's summary.
ghost use Rattle.std.specs.Prelude.{◌≡◌, ◌≤◌, IfOk, length, count_by};
ghost use Rattle.array_tree.specs.Trees.{declarations_of};
ghost use Rattle.array_meaning.specs.Bounds.{most_cells};
ghost use Rattle.array_meaning.specs.Values.{wrapping_sum};
ghost use Rattle.array_meaning.specs.Stores.{arrays_of, AreSized, cells_of};
ghost use Rattle.transfer_table.specs.Entry.{is_register};
ghost use Rattle.lithe_call.specs.Summary.{sum_of, summary_text};

use array_eval::{Store, count_cells};
use array_tree::Program;
use std::alloc::{AllocError, Global};
use transfer_table::{Entry, Plan};

/// The lines of a summary: the number of the program's cells, the sum of their values in the store, the number of the plan's
/// sites, and how many of the entries register one. The sum wraps.
///
/// Each array must have a cell, and all arrays together at most 4,096. The store must have one value for each cell.
///
/// # Errors
///
/// `AllocError` if an allocation fails.
///
/// # Memory
///
/// It allocates the text.
pub fn write_summary(
    alloc: Global,
    program: &Program,
    plan: &Plan,
    store: &Store,
    list: &[Entry],
) -> Result<Vec<u8>, AllocError>
    requires sized { AreSized (arrays_of (declarations_of program.now.arrays)) }
    requires whole { length store.now ≡ cells_of (arrays_of (declarations_of program.now.arrays)) }
    ensures { IfOk result (λ text. text.items ≡ summary_text plan.now store.now list.now) }
{
    let cells = count_cells(&program.arrays);
    let sum = sum(store, cells);
    let sites = plan.sites();
    let registers = registers(list);
    let mut text = String::new(alloc);
    writeln!(text, "cells {cells}")?;
    writeln!(text, "sum {sum}")?;
    writeln!(text, "sites {sites}")?;
    writeln!(text, "registers {registers}")?;
    Ok(text.into_bytes())
}

// The sum of all cells, of which there are so many.
fn sum(store: &Store, cells: usize) -> i64
    requires whole { cells ≡ length store.now }
    requires few { cells ≤ most_cells }
    ensures { result ≡ sum_of store.now }
{
    let mut sum = 0i64;
    for cell in 0..cells {
        sum = added(sum, store.get(cell as u16));
    }
    sum
}

// A sum, which wraps.
fn added(sum: i64, value: i64) -> i64
    ensures { result ≡ wrapping_sum sum value }
{
    sum.wrapping_add(value)
}

// The number of entries that register a site.
fn registers(list: &[Entry]) -> usize
    ensures { result ≡ count_by is_register list.now }
{
    list.iter()
        .filter(|entry| matches!(entry, Entry::Register { .. }))
        .count()
}

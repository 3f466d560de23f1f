//! The rows of a table, as a loop.
ghost use Rattle.std.specs.Prelude.{◌≡◌, ◌≤◌, ◌⊎◌, ◌%◌, ◌^◌, length, sum, IfOk, IfErr, alloc_error};
ghost use Rattle.std.specs.List.{AllZip};
ghost use Rattle.task_loops.specs.Ranges.{between};
ghost use Rattle.task_nested.specs.Rows.{IsSummary};

use crate::work::{Summary, Work};
use std::alloc::{AllocError, Global};
use task_loops::{Fold, Indices, Leaf, Sum, run_sum};
use task_sort::{Sort, run_sort};
use tasks::Harts;

/// The rows of a table. Each row is sorted and added up, by parts that are cut so many times.
#[derive(Clone, Copy)]
pub struct Rows<'p> {
    /// The rows.
    pub rows: &'p [Vec<u64>],
    /// The number of levels of parts that may be inside one row.
    pub cuts: u8,
    /// One hart runs a part of a row that has fewer numbers.
    pub shortest: usize,
}

impl<'p> Indices for Rows<'p> {
    ghost size = { λ fold. length fold.rows.now };

    fn count(&self) -> usize
        ensures { result ≡ length self.now.rows.now }
    {
        self.rows.len()
    }
}

impl<'p> Fold for Rows<'p> {
    type Output = Vec<Summary>;

    type Error = AllocError;

    ghost gives = { λ fold low high output. AllZip IsSummary (between low high fold.rows.now) output.items };

    ghost fails = { λ _ _ _ _. ⊥ };

    ghost depth = { λ fold. fold.cuts };

    fn join(&self, front: Vec<Summary>, back: Vec<Summary>) -> Result<Vec<Summary>, AllocError> {
        let mut summaries = front;
        let mut others = back;
        summaries.append(&mut others)?;
        Ok(summaries)
    }

    ghost front_fails = { λ _ _ _ _ _ _ _ no. no };

    ghost back_fails = { λ _ _ _ _ _ _ _ _ _ no. no };
}

impl<'p> Leaf<Work<'p>> for Rows<'p> {
    fn run<H: Harts<Work<'p>>>(
        &self,
        alloc: Global,
        harts: &mut H,
        low: usize,
        high: usize,
    ) -> Result<Vec<Summary>, AllocError>
        requires in_order { low ≤ high }
        requires within { high ≤ length self.now.rows.now }
        requires levels { self.now.cuts ≤ H.levels harts.old }
        ensures output { IfOk result
            (λ output. AllZip IsSummary (between low high self.now.rows.now) output.items) }
        ensures error { IfErr result (λ error. ⊥ ⊎ (error ≡ alloc_error)) }
        ensures levels { H.levels harts.new ≡ H.levels harts.old }
    {
        summaries_of::<H>(
            alloc,
            harts,
            &self.rows[low..high],
            self.cuts,
            self.shortest,
        )
    }
}

// The summaries of rows, in order.
fn summaries_of<'p, H: Harts<Work<'p>>>(
    alloc: Global,
    harts: &mut H,
    rows: &'p [Vec<u64>],
    cuts: u8,
    shortest: usize,
) -> Result<Vec<Summary>, AllocError>
    requires { cuts ≤ H.levels harts.old }
    ensures output { IfOk result (λ output. AllZip IsSummary rows.now output.items) }
    ensures error { IfErr result (λ error. error ≡ alloc_error) }
    ensures levels { H.levels harts.new ≡ H.levels harts.old }
{
    let mut summaries = Vec::with_capacity(alloc, rows.len())?;
    'rows: for row in rows {
        let summary = summary_of::<H>(alloc, harts, row, cuts, shortest)?;
        summaries.push(summary)?;
    }
    Ok(summaries)
}

// One row, sorted by one library and added up by another.
fn summary_of<'p, H: Harts<Work<'p>>>(
    alloc: Global,
    harts: &mut H,
    row: &'p Vec<u64>,
    cuts: u8,
    shortest: usize,
) -> Result<Summary, AllocError>
    requires { cuts ≤ H.levels harts.old }
    ensures output { IfOk result (λ output. IsSummary row.now output) }
    ensures error { IfErr result (λ error. error ≡ alloc_error) }
    ensures levels { H.levels harts.new ≡ H.levels harts.old }
{
    let sort = Sort {
        items: row.clone()?,
        cuts,
        shortest,
    };
    let sorted = run_sort::<u64, Work<'p>, H>(alloc, harts, sort)?;
    let numbers = Sum {
        numbers: row.as_slice(),
    };
    let sum = run_sum::<Work<'p>, H>(alloc, harts, numbers, cuts, shortest)?;
    Ok(Summary { sorted, sum })
}

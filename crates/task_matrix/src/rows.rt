//! The product, row by row.
ghost use Rattle.std.specs.Prelude.{◌≡◌, ◌≤◌, ◌%◌, ◌^◌, length, slice_index, IfOk, IfErr, alloc_error};
ghost use Rattle.std.specs.List.{AllZip};
ghost use Rattle.task_matrix.specs.Product.{IsProductRow, dot};

use held_tasks::Holds;
use std::alloc::{AllocError, Global};
use task_loops::{Map, Mapped, Part, run_map};
use tasks::Harts;

/// Multiplies a row by each column of a matrix. A column that is shorter than the row counts as if zeros followed. The numbers of a
/// longer column past the row's length are ignored.
#[derive(Clone, Copy)]
pub struct Times<'p> {
    /// The columns of the second matrix.
    pub columns: &'p [Vec<u64>],
}

/// The rows of the first matrix, and the columns of the second.
pub type Factors<'p> = Mapped<'p, Vec<u64>, Times<'p>>;

impl<'p> Map<Vec<u64>> for Times<'p> {
    type Image = Vec<u64>;

    ghost image = { λ times row output. IsProductRow times.columns.now row output };

    fn image_of(&self, alloc: Global, element: &Vec<u64>) -> Result<Vec<u64>, AllocError>
        ensures image { IfOk result
            (λ output. IsProductRow self.now.columns.now element.now output) }
        ensures error { IfErr result (λ error. error ≡ alloc_error) }
    {
        times_columns(alloc, element, self.columns)
    }
}

// A row times each column.
fn times_columns(
    alloc: Global,
    row: &Vec<u64>,
    columns: &[Vec<u64>],
) -> Result<Vec<u64>, AllocError>
    ensures image { IfOk result (λ output. IsProductRow columns.now row.now output) }
    ensures error { IfErr result (λ error. error ≡ alloc_error) }
{
    let mut output = Vec::with_capacity(alloc, columns.len())?;
    let numbers = row.as_slice();
    'columns: for column in columns {
        let others = column.as_slice();
        let number = dot(numbers, others);
        output.push(number)?;
    }
    Ok(output)
}

// The sum of the products of the numbers of two lists, modulo 2^64.
fn dot(row: &[u64], column: &[u64]) -> u64
    ensures { result ≡ dot (length row.now) row.now column.now % 2 ^ 64 }
{
    let mut sum = 0u64;
    'numbers: for index in 0..row.len() {
        let other = number_at(column, index);
        sum = sum.wrapping_add(row[index].wrapping_mul(other));
    }
    sum
}

// The number at an index, or 0 after the last.
fn number_at(numbers: &[u64], index: usize) -> u64
    ensures { result ≡ slice_index numbers.now index }
{
    numbers.get(index).copied().unwrap_or(0)
}

/// Computes a product inside tasks of any kind that holds its parts: the rows of the product, in order.
///
/// # Errors
///
/// An allocation failure.
///
/// # Memory
///
/// One list for each row, and what [`run_map`] allocates.
pub fn run_product<'p, V: Holds<Part<Factors<'p>>>, H: Harts<V>>(
    alloc: Global,
    harts: &mut H,
    factors: Factors<'p>,
    cuts: u8,
    shortest: usize,
) -> Result<Vec<Vec<u64>>, AllocError>
    requires { cuts ≤ H.levels harts.old }
    ensures product { IfOk result (λ output. AllZip (IsProductRow factors.entry.map.columns.now)
        factors.entry.elements.now output.items) }
    ensures error { IfErr result (λ error. error ≡ alloc_error) }
    ensures levels { H.levels harts.new ≡ H.levels harts.old }
{
    let product = run_map::<Vec<u64>, Times<'p>, V, H>(alloc, harts, factors, cuts, shortest)?;
    Ok(product)
}

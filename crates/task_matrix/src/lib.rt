//! A matrix product over the integers modulo 2^64, as a library of tasks on top of the loops of `task_loops`.
//!
//! The first matrix is a list of rows, the second a list of columns, so that both numbers of each multiplication are next to
//! the previous ones in memory. [`run_product`] maps the rows to the product's rows, in order, on any free harts.
//!
//! Proved: each number of the product is the sum over k of the row's k-th number times the column's k-th number, modulo 2^64,
//! for any distribution of rows to harts.
//!
//! # Example
//!
//! ```text
//! let times = Mapped { elements: rows.as_slice(), map: Times { columns: columns.as_slice() } };
//! let product = run_product::<V, H>(alloc, harts, times, 3, 16)?;
//! ```
#![tactic(auto)]

mod rows;

pub use rows::{Factors, Times, run_product};

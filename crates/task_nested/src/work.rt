//! The application's tasks, and their outputs.
use crate::rows::Rows;
use task_loops::{Part, Sum};
use task_sort::Sort;

/// A task.
#[derive(Drop)]
pub enum Work<'p> {
    /// A range of the table's rows.
    Table(Part<Rows<'p>>),
    /// A list is sorted.
    Sorted(Sort<u64>),
    /// A range of a row is added up.
    Added(Part<Sum<'p>>),
}

/// The output of a task.
#[derive(Drop)]
pub enum Done {
    /// The summaries of the rows, in order.
    Summaries(Vec<Summary>),
    /// The numbers in order.
    Numbers(Vec<u64>),
    /// A sum modulo 2^64.
    Total(u64),
}

/// The summary of a row.
#[derive(Debug, Drop, PartialEq)]
pub struct Summary {
    /// The row's numbers in order.
    pub sorted: Vec<u64>,
    /// The sum of the row's numbers, modulo 2^64.
    pub sum: u64,
}

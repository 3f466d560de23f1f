//! Closures as tasks: two at once, a map of a slice, and a loop over indices, on several harts.
//!
//! Each call starts the harts, calls the closures on them, and returns once all calls have ended. A closure is a leaf: it runs no
//! tasks inside it. Work that forks is a [`Task`](tasks::Task).
//!
//! # Example
//!
//! From `examples.rt`.
//!
//! ```text
//! join_on(rt, alloc, harts, || numbers.iter().copied().max(), || numbers.len())
//!
//! map_on(rt, alloc, harts, numbers, |n: &u32| (*n as u64) * (*n as u64))
//! ```
#![tactic(auto)]

mod each;
mod examples;
mod pair;
mod parts;
#[cfg(test)]
mod tests;
mod work;

pub use each::{for_each_on, map_on};
pub use examples::{greatest_and_length, squares_of};
pub use pair::join_on;

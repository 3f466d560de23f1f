//! Loops and reductions over a range of indices, as a library of tasks.
//!
//! An author states the output of the indices from `low` up to `high`, how the outputs of two neighbouring ranges are joined
//! ([`Fold`]), and how one hart computes a short range ([`Leaf`]). [`run_fold`] cuts the range in halves, runs them as tasks on
//! any free harts, and joins their outputs in order. The law of `join` is all that an associative operator needs: if `a..b` has
//! one output and `b..c` has another, the joined output is an output of `a..c`. So the result is the sequential one, for any
//! cuts, even for an operator that isn't commutative.
//!
//! Three folds are ready to use: [`Mapped`] applies a function to each element of a slice and keeps the order, [`Each`] runs a
//! body at each index, and [`Sum`] adds up the numbers of a slice. A [`Part`] is made of a whole fold by [`Part::whole`], and no part
//! has an index that its fold doesn't have. [`for_each_mut`] changes the elements of a slice in place, on threads of its own.
//!
//! # Example
//!
//! The sum of a slice's numbers, modulo 2^64, from `sums.rt` and `task_tests/src/loops.rt`.
//!
//! ```text
//! impl<'p> Indices for Sum<'p> {
//!     ghost size = { λ fold. length fold.numbers.now };
//!     fn count(&self) -> usize {
//!         self.numbers.len()
//!     }
//! }
//!
//! impl<'p> Fold for Sum<'p> {
//!     type Output = u64;
//!     type Error = AllocError;
//!     ghost gives = { λ fold low high output. output ≡ sum (between low high fold.numbers.now) % 2 ^ 64 };
//!     ghost fails = { λ _ _ _ _. ⊥ };
//!     ghost depth = { λ _. 0 };
//!     fn join(&self, front: u64, back: u64) -> Result<u64, AllocError> {
//!         Ok(front.wrapping_add(back))
//!     }
//!     ghost front_fails = { λ _ _ _ _ _ _ _ no. no };
//!     ghost back_fails = { λ _ _ _ _ _ _ _ _ _ no. no };
//! }
//!
//! let part = Part::whole(Sum { numbers: &numbers }, cuts, 0);
//! assert_eq!(rt; run_alone(rt.alloc(), part)?, 30);
//! ```
#![tactic(auto)]

mod changes;
mod fold;
mod loops;
mod sums;

pub use changes::{Change, for_each_mut};
pub use fold::{Fold, Indices, Leaf, Part, run_fold};
pub use loops::{Body, Each, Map, Mapped, for_each, run_map};
pub use sums::{Sum, run_sum};

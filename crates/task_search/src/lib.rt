//! The first value in a tree that is wanted. The trees below a node are searched as tasks.
//!
//! A tree is searched in preorder: a value comes before those below it, and the trees below a node come in order. The output is
//! the same on any number of harts. A hart that has found a value does not stop the others.
//!
//! # Example
//!
//! ```text
//! #[derive(Drop)]
//! struct Sevens;
//!
//! impl Wanted<u64> for Sevens {
//!     ghost wants = { λ _ value. value % 7 == 0 };
//!
//!     fn wants(&self, value: &u64) -> bool {
//!         *value % 7 == 0
//!     }
//! }
//!
//! let search = Search { tree: &tree, wanted: &Sevens, levels: 2 };
//! match run_on(&rt, rt.alloc(), 4, 2, search) {
//!     Ok(Some(value)) => ..,
//!     Ok(None) => ..,
//!     Err(_) => ..,
//! }
//! ```
#![tactic(auto)]

mod search;
mod tree;

pub use search::{Search, first_in, run_search};
pub use tree::{Tree, Wanted};

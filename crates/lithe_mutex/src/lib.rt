//! A mutex that blocks contexts, not harts.
//!
//! A held mutex keeps a context that acquires it, and the context's hart does other work. On `release` the holder's value goes
//! to the context that waited longest. `table_tests` has examples.
#![tactic(auto)]

pub mod laws;
mod shared;
mod state;

pub use shared::{LitheMutex, Reply};
pub use state::{Acquired, MutexState, Released};

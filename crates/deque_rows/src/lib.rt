//! Work-stealing deques of job indices. Each hart has three, one for each nesting level. The hart pushes and pops at one end,
//! and other harts steal at the other. The account (`specs/Account.antt`) states that each pushed index is popped or stolen
//! once, or remains. `board_tests` has examples.
#![tactic(auto)]

mod account;
mod calls;
mod ends;
mod hart;
pub mod laws;
mod lines;
mod making;
mod stolen;

pub use account::Log;
pub use hart::HartRows;
pub use making::{ROOM, rows, rows_for};
pub use stolen::Stolen;

//! Small programs for the tests of schedulers, with their constructs, jobs and pieces. Why here: the code that the tests of
//! books, pools and teams share is proved once.
//!
//! Each error is a failure of the test: a text that spells no program, a program that isn't accepted, or an allocation failure.
//!
//! Begin with `programs.rt`, which has the texts; the tests of `piece_tests` and `scheduler_tests` use all of it.
#![tactic(auto)]

mod answers;
mod constructs;
mod programs;

pub use answers::{Came, outcome_of};
pub use constructs::{first_construct, first_jobs, piece_at, waiting};
pub use programs::{
    BOTH_BRANCHES, BOTH_PHASES, FIRST_PHASE, SECOND_PHASE, TWO_BRANCHES, TWO_PHASES, accepted,
    parsed,
};

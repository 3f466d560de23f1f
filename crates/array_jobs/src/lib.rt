//! Jobs and pieces. A job is the work of one branch, or of one member in one phase, with all that it starts from. A piece is a
//! job with its writes.
//!
//! `step_eval` cuts a construct into jobs, harts run them, and schedulers collect the pieces. Begin with `Job` in `job.rt` and
//! `piece_of` in `piece.rt`; the tests of `piece_tests` make jobs and compare their pieces with a run of the whole.
#![tactic(auto)]

mod body;
mod group;
mod job;
mod laws;
mod piece;
mod work;

pub use body::body_job;
pub use group::copy_jobs;
pub use job::Job;
pub use laws::bodies_give_final_stores;
pub use piece::{Piece, piece_of, written_by};
pub use work::{Work, sites_in};

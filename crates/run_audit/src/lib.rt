//! The audit of a run: from a program and an output of it to a verdict. The output may come from any implementation.
//!
//! `lithe audit` calls it, and a picture has its verdict. Begin with `audit` in `auditing.rt` and `audit_of` in
//! `specs/Audit.antt`; the tests of `command_tests` audit outputs that are right, differ, and are illegal.
#![tactic(auto)]

mod auditing;
mod laws;
mod lines;
mod parts;
mod verdict;

pub use auditing::{audit, audit_by};
pub use laws::legal_outputs_are_found;
pub use lines::{text_fault_line, verdict_line};
pub use parts::parts_of;
pub use verdict::Verdict;

//! Jobs that run a step at a time, by machines that any hart can pause and pass on.
//!
//! A machine hands out the constructs that it comes to; `jobs_of` cuts a construct into jobs, and `compute` runs one in place.
//! Harts use machines through `job_machines`. Begin with `StepMachine` in `machine.rt`; the tests of `piece_tests` step machines.
#![tactic(auto)]

mod computing;
mod found;
mod frames;
mod jobs;
mod laws;
mod machine;
mod nested;
mod reported;
mod shape;
mod stage;
mod work;

pub use computing::compute;
pub use found::Found;
pub use jobs::{job_at, jobs_of};
pub use laws::{
    jobs_are_counted, jobs_are_groups, jobs_are_rounds, phases_are_constructs, phases_are_merged,
};
pub use machine::StepMachine;
pub use nested::Nested;
pub use shape::Kind;
pub use stage::Stage;
pub use work::Work;

//! What the scheduler of a construct has for its harts.
use crate::machine::StepMachine;
use array_jobs::Job;
use contexts::Paused;

/// What a hart takes from the scheduler of a construct.
#[derive(Drop)]
pub enum Work<'p> {
    /// A piece that hasn't begun.
    Begin(Job<'p>),
    /// A context that waited, and is ready to go on.
    Ready(Paused<StepMachine<'p>>),
}

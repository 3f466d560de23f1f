//! The begin of a machine in its context, and the results of its steps.
ghost use Rattle.std.specs.Prelude.{◌≡◌, IfOk};
ghost use Rattle.step_eval.specs.Machines.{fresh_machine};
ghost use Rattle.job_machines.specs.Met.{as_seen};

use array_jobs::Job;
use contexts::{InitRefused, Running, Step, ctx_init, ctx_run};
use hart_work::Found;
use std::alloc::{AllocError, Global};
use step_eval::{Found as Met, Nested, StepMachine};

/// A context that runs a machine for the job.
///
/// # Errors
///
/// `AllocError` if an allocation fails.
///
/// # Memory
///
/// It allocates the context and the machine.
pub fn started<'p>(alloc: Global, job: Job<'p>) -> Result<Running<StepMachine<'p>>, AllocError>
    ensures { IfOk result (λ running. running ≡ fresh_machine job.entry) }
{
    match ctx_init(alloc, StepMachine::new(alloc, job)?) {
        Ok(fresh) => Ok(ctx_run(fresh)),
        Err(InitRefused { machine: _ }) => Err(AllocError),
    }
}

/// The result of a machine's step, for the hart that runs it.
pub fn as_seen<'p>(step: Step<Met<'p>>) -> Step<Found<Nested<'p>>>
    ensures { result ≡ as_seen step.entry }
{
    match step {
        Step::More => Step::More,
        Step::Nest(Met::Nest(nested)) => Step::Nest(Found::Nest(nested)),
        Step::Nest(Met::Pass { first, end }) => Step::Nest(Found::Pass { first, end }),
        Step::Finished => Step::Finished,
        Step::NoMemory => Step::NoMemory,
    }
}

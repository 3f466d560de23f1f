//! Machines, from construct to construct.
ghost use Rattle.std.specs.Prelude.{◌≡◌, IfOk, false};
ghost use Rattle.array_jobs.specs.Jobs.{job_of};
ghost use Rattle.array_jobs.specs.PieceParts.{piece_of_job};
ghost use Rattle.step_eval.specs.Machines.{is_awaiting, IsFinished};
ghost use Rattle.array_tasks.specs.Machines.{HasCome};

use array_eval::Overlay;
use array_jobs::Piece;
use contexts::Step;
use std::alloc::AllocError;
use step_eval::{Found, Nested, StepMachine};

/// Runs a machine to its next construct, whose writes it then awaits. None at the end of its job.
///
/// # Errors
///
/// An allocation failure.
///
/// # Memory
///
/// What the steps allocate.
pub(crate) fn next_nested<'p>(
    machine: &mut StepMachine<'p>,
) -> Result<Option<Nested<'p>>, AllocError>
    requires { is_awaiting machine.old.stage ≡ false }
    ensures { IfOk result (λ found. HasCome machine.old found machine.new) }
{
    'steps: loop {
        match machine.go() {
            // Why nothing is done at a pass: it is for harts that keep a journal of the sites.
            Step::More | Step::Nest(Found::Pass { .. }) => {}
            Step::Nest(Found::Nest(nested)) => return Ok(Some(nested)),
            Step::Finished => return Ok(None),
            Step::NoMemory => return Err(AllocError),
        }
    }
}

/// The writes of a machine that has run its job to the end.
pub(crate) fn written_by_machine(machine: StepMachine<'_>) -> Overlay
    requires { IsFinished machine }
    ensures { result.pairs ≡ piece_of_job (job_of machine.entry.job) }
{
    let Piece { job: _, written } = machine.into_piece();
    written
}

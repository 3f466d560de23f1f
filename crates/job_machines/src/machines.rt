//! The machines of jobs.
ghost use Rattle.std.specs.Prelude.{◌≡◌, false};
ghost use Rattle.step_eval.specs.Nests.{nested_of, nested_writes};
ghost use Rattle.step_eval.specs.Machines.{left_of, is_awaiting, IsFinished};
ghost use Rattle.job_machines.specs.Accounts.{IsAwaitingWrites, is_fresh_job, is_fresh, is_run_job, is_run, is_going, is_waiting};

use crate::steps::{as_seen, started};
use array_eval::Overlay;
use array_jobs::{Job, Piece};
use array_tree::Block;
use contexts::{Running, Step};
use hart_work::{Found, Machines};
use std::alloc::{AllocError, Global};
use std::marker::PhantomData;
use step_eval::{Nested, StepMachine, compute};

/// The machines of jobs: each runs the work of one job in a context of its own. There is no value of them.
pub struct JobMachines<'p> {
    of: PhantomData<&'p Block>,
}

impl<'p> Machines for JobMachines<'p> {
    type Job = Job<'p>;

    type Piece = Piece<'p>;

    type Nested = Nested<'p>;

    type Written = Overlay;

    type Machine = StepMachine<'p>;

    ghost job_of = { λ m. m.job };

    ghost job_in = { λ p. p.job };

    ghost phase_of = { λ job. job.phase };

    ghost place_of = { λ job. job.place };

    ghost number_of = { λ n. n.site };

    ghost writes_of = { λ n. nested_writes (nested_of n) };

    ghost written_in = { λ w. w.pairs };

    ghost ready = { λ m. is_awaiting m.stage ≡ false };

    ghost awaits = { IsAwaitingWrites };

    ghost steps_left = { λ m. left_of m.stage m.rest };

    ghost finished = { IsFinished };

    ghost fresh_job = { is_fresh_job };

    ghost fresh = { is_fresh };

    ghost ran_job = { is_run_job };

    ghost ran = { is_run };

    ghost going = { is_going };

    ghost awaiting = { is_waiting };

    fn start(alloc: Global, job: Job<'p>) -> Result<Running<StepMachine<'p>>, AllocError> {
        started(alloc, job)
    }

    fn step(running: &mut Running<StepMachine<'p>>) -> Step<Found<Nested<'p>>> {
        as_seen(running.machine().go())
    }

    fn supply(running: &mut Running<StepMachine<'p>>, written: Overlay) -> Result<(), AllocError> {
        running.machine().supply(&written)
    }

    fn end(machine: StepMachine<'p>) -> Piece<'p> {
        machine.into_piece()
    }

    fn number(nested: &Nested<'p>) -> u16 {
        nested.site
    }

    fn phase(job: &Job<'p>) -> u8 {
        job.phase
    }

    fn place(job: &Job<'p>) -> u8 {
        job.place
    }

    fn compute(alloc: Global, nested: Nested<'p>) -> Result<Overlay, AllocError> {
        compute(alloc, &nested)
    }
}

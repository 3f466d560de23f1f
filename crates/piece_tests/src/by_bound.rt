//! The machines of jobs, as a hart has them: by the trait `Machines` alone.
ghost use Rattle.std.specs.Prelude.{◌≡◌, true};

use crate::constructs::first_construct;
use crate::driving::holds;
use array_jobs::body_job;
use contexts::{Running, Step, ctx_fini};
use disjoint_check::Accepted;
use hart_work::{Found, Machines};
use job_machines::JobMachines;
use std::alloc::Global;
use std::test::Fail;

// Supplies a machine with the writes of its construct, computed by itself. Returns whether that succeeded.
fn is_supplied<M: Machines>(
    alloc: Global,
    running: &mut Running<M::Machine>,
    nested: M::Nested,
) -> bool
    requires { M.awaits running.old (M.writes_of nested) }
    ensures { result ≡ true → M.ready running.new }
{
    match M::compute(alloc, nested) {
        Ok(written) => M::supply(running, written).is_ok(),
        Err(_) => false,
    }
}

// The piece of a machine that is done within so many steps.
fn finished<M: Machines>(alloc: Global, running: Running<M::Machine>, steps: u8) -> Option<M::Piece>
    requires { M.ready running }
{
    let mut running = running;
    if steps > 0 {
        match M::step(&mut running) {
            Step::More | Step::Nest(Found::Pass { first: _, end: _ }) => {
                return finished::<M>(alloc, running, steps - 1);
            }
            Step::Nest(Found::Nest(nested)) => {
                if is_supplied::<M>(alloc, &mut running, nested) {
                    return finished::<M>(alloc, running, steps - 1);
                }
            }
            Step::Finished => return Some(M::end(ctx_fini(running).into_machine())),
            Step::NoMemory => {}
        }
    }
    drop(running.abandon());
    None
}

// The piece of a job.
fn piece_by<M: Machines>(alloc: Global, job: M::Job) -> Result<M::Piece, Fail> {
    let running = M::start(alloc, job)?;
    Ok(finished::<M>(alloc, running, 100).ok_or("no piece")?)
}

// Whether the body of the program writes the three cells, and is reported as the first piece of the first phase.
fn is_run(alloc: Global, accepted: &Accepted) -> Result<bool, Fail> {
    let job = body_job(alloc, accepted.program())?;
    let is_first = JobMachines::phase(&job) == 0 && JobMachines::place(&job) == 0;
    let piece = piece_by::<JobMachines>(alloc, job)?;
    let expected = [(0, 1), (1, 2), (2, 3)];
    Ok(is_first && piece.written.pairs() == expected.as_slice())
}

#[test]
fn a_job_is_run_by_what_machines_require(rt: HostRuntime) -> Result<(), Fail> {
    let text = b"array a[4]; a[0] = 1;
        if 0 { par { { a[3] = 1; } { } } }
        par { { a[1] = 2; } { a[2] = a[0] + 2; } }";
    assert!(rt; holds(rt.alloc(), text.as_slice(), &is_run)?);
    Ok(())
}

// Whether the first construct has the first site.
fn is_first_site(alloc: Global, accepted: &Accepted) -> Result<bool, Fail> {
    let nested = first_construct(alloc, accepted)?;
    Ok(JobMachines::number(&nested) == 1)
}

#[test]
fn a_construct_has_the_number_of_its_site(rt: HostRuntime) -> Result<(), Fail> {
    let text = b"array a[2]; par { { a[0] = 1; } { a[1] = 2; } }";
    assert!(rt; holds(rt.alloc(), text.as_slice(), &is_first_site)?);
    Ok(())
}

//! Jobs, pieces, constructs and machines that move from thread to thread.

use crate::constructs::first_construct;
use crate::driving::driven;
use array_jobs::body_job;
use disjoint_check::{Accepted, check};
use sample_programs::parsed;
use std::alloc::{AllocError, Global};
use std::test::Fail;
use std::thread;
use std::thread::Threads;
use step_eval::StepMachine;

fn look<T>(_value: &T) {}

// Two threads read a value, and then one of them takes it and returns it.
fn crossed<R: Threads, T: Send + Sync + Drop>(rt: &R, value: T) -> T {
    let _ = thread::join(rt, || look(&value), || look(&value));
    let (value, ()) = thread::join(rt, move || value, || ());
    value
}

// Whether a program's job and its piece come back from threads, and the piece writes this.
fn job_and_piece_cross<R: Threads>(
    rt: &R,
    alloc: Global,
    accepted: &Accepted,
    expected: &[(u16, i64)],
) -> Result<bool, Fail> {
    let job = body_job(alloc, accepted.program())?;
    let piece = driven(alloc, crossed(rt, job))?;
    Ok(crossed(rt, piece).written.pairs() == expected)
}

#[test]
fn jobs_and_pieces_cross_threads(rt: HostRuntime) -> Result<(), Fail> {
    let alloc = rt.alloc();
    let program = parsed(alloc, b"array a[2]; a[1] = 5;".as_slice())?;
    let accepted = check(alloc, &program, 1)?;
    assert!(rt; job_and_piece_cross(&rt, alloc, &accepted, [(1, 5)].as_slice())?);
    Ok(())
}

// Takes the machine of a program's body through threads.
fn machine_crosses<R: Threads>(
    rt: &R,
    alloc: Global,
    accepted: &Accepted,
) -> Result<(), AllocError> {
    let machine = StepMachine::new(alloc, body_job(alloc, accepted.program())?)?;
    drop(crossed(rt, machine));
    Ok(())
}

// The number of members of a program's first construct after it came back from threads.
fn members_across<R: Threads>(rt: &R, alloc: Global, accepted: &Accepted) -> Result<u8, Fail> {
    let nested = first_construct(alloc, accepted)?;
    Ok(crossed(rt, nested).members())
}

#[test]
fn machines_and_constructs_cross_threads(rt: HostRuntime) -> Result<(), Fail> {
    let alloc = rt.alloc();
    let text = b"array a[2]; par { { a[0] = 1; } { a[1] = 2; } }";
    let program = parsed(alloc, text.as_slice())?;
    let accepted = check(alloc, &program, 1)?;
    machine_crosses(&rt, alloc, &accepted)?;
    assert_eq!(rt; members_across(&rt, alloc, &accepted)?, 2);
    Ok(())
}

//! The accounts of the sites of the machines of a single hart: from a job with fresh sites to a job that has run.
//!
//! A machine goes on, waits for a construct, passes the sites of a side of an `if` that doesn't run, and finishes. A construct
//! is opened, its jobs run in any order, and it ends. A hart that runs them phase after phase, within a phase in the order of
//! their indices, keeps that account by a phase and an index. Over the whole body of a program the journal is complete.
//!
//! Begin with `specs/Machines.antt`; `lone_hart` and `machines.rt` use the laws, and the tests of `lithe_tests` run programs
//! whose journals they are about.

ghost use Rattle.job_machines.specs.Machines.{MachinesBegin, MachinesRunOn, MachinesWait, MachinesPass, MachinesGoOn, MachinesFinish, BodiesAreFresh, BodiesAreRun};
ghost use Rattle.job_machines.specs.Serving.{ConstructsOpen, JobsAreFresh, JobsAreDone, ChildrenHaveEnded, ConstructsEnd};
ghost use Rattle.job_machines.specs.Orders.{ServingStarts, NextJobsAreFresh, NextJobsAreDone, PhasesTurn, ServedHaveEnded, ServedAreRun};

/// A machine that is made of a job begins with fresh sites.
pub fn machines_begin()
    ensures { MachinesBegin }
{}

/// While there is no event for the hart, no entry is made, and the account is kept.
pub fn machines_run_on()
    ensures { MachinesRunOn }
{}

/// A machine that comes to a construct waits for it, and the construct's sites are fresh.
pub fn machines_wait()
    ensures { MachinesWait }
{}

/// The sites that the hart has to skip are whole subtrees and fresh, and once they are skipped the account is right.
pub fn machines_pass()
    ensures { MachinesPass }
{}

/// Once the construct for which it waits has run, a machine goes on after it.
pub fn machines_go_on()
    ensures { MachinesGoOn }
{}

/// A machine without remaining works has run its job.
pub fn machines_finish()
    ensures { MachinesFinish }
{}

/// Before the first entry, the sites of a program's body are fresh.
pub fn bodies_are_fresh()
    ensures { BodiesAreFresh }
{}

/// When the body has run, the entries are complete.
pub fn bodies_are_run()
    ensures { BodiesAreRun }
{}

/// A construct with fresh sites is registered, and none of its jobs has run.
pub fn constructs_open()
    ensures { ConstructsOpen }
{}

/// The sites of a job that hasn't run are fresh.
pub fn jobs_are_fresh()
    ensures { JobsAreFresh }
{}

/// When a job has run, it is one more of those that have.
pub fn jobs_are_done()
    ensures { JobsAreDone }
{}

/// When all jobs have run, each child of the construct's site is gone or skipped.
pub fn children_have_ended()
    ensures { ChildrenHaveEnded }
{}

/// With the unregister, the construct has run.
pub fn constructs_end()
    ensures { ConstructsEnd }
{}

/// When a hart begins to serve a construct, none of its jobs has run.
pub fn serving_starts()
    ensures { ServingStarts }
{}

/// The sites of the job whose turn it is are fresh.
pub fn next_jobs_are_fresh()
    ensures { NextJobsAreFresh }
{}

/// When that job has run, it is the turn of the job after it.
pub fn next_jobs_are_done()
    ensures { NextJobsAreDone }
{}

/// After the last job of a phase comes the next phase.
pub fn phases_turn()
    ensures { PhasesTurn }
{}

/// After the last phase, each child of the construct's site is gone or skipped.
pub fn served_have_ended()
    ensures { ServedHaveEnded }
{}

/// A construct that was served to its last phase has run once its site is unregistered.
pub fn served_are_run()
    ensures { ServedAreRun }
{}

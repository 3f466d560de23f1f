//! The account of a machine that runs a job on a single hart: from fresh sites (neither registered nor skipped) to sites that
//! have ended as the job enters them.
//!
//! Begin with `specs/Piece.antt`; `transfer_table` has the accounts of a plan, and the tests of `lithe_tests` run programs
//! whose journals the laws are about.

ghost use Rattle.job_machines.specs.Piece.{AccountsBegin, AccountsStep, AccountsPassConstructs, NextConstructsAreFresh, NextPassesAreFresh, AccountsEnd};
ghost use Rattle.job_machines.specs.Constructs.{ConstructsAreOver, ServingBegins, OtherJobsAreFresh, ServingGoesOn, ServedConstructsAreRun, JobsHaveOwnSites, JobsNotDoneAreFresh};

/// A machine that is made of a job with fresh sites has an account.
pub fn accounts_begin()
    ensures { AccountsBegin }
{}

/// It has an account after a step that hands out no construct, once the hart has skipped the sites of the step.
pub fn accounts_step()
    ensures { AccountsStep }
{}

/// It has an account after a construct, once the construct has run.
pub fn accounts_pass_constructs()
    ensures { AccountsPassConstructs }
{}

/// The sites of the next construct are fresh.
pub fn next_constructs_are_fresh()
    ensures { NextConstructsAreFresh }
{}

/// At the end all sites of the job have ended as they are meant to.
pub fn accounts_end()
    ensures { AccountsEnd }
{}

/// If a construct's own site came and went, and each job of its phases has ended as it enters its sites, the construct has
/// ended as it enters its own.
pub fn constructs_are_over()
    ensures { ConstructsAreOver }
{}

/// When a construct begins to be served, no job is done.
pub fn serving_begins()
    ensures { ServingBegins }
{}

/// While a construct is served, the sites of a job that has none of the done jobs' sites are fresh.
pub fn other_jobs_are_fresh()
    ensures { OtherJobsAreFresh }
{}

/// When a job of a construct that is being served has run, and changed no sites but its own, the construct is served with that
/// job done.
pub fn serving_goes_on()
    ensures { ServingGoesOn }
{}

/// A construct that is registered, served until all its jobs are done, and unregistered has ended as it enters its sites.
pub fn served_constructs_are_run()
    ensures { ServedConstructsAreRun }
{}

/// The sites of a job lie inside its construct, and no other job has one of them.
pub fn jobs_have_own_sites()
    ensures { JobsHaveOwnSites }
{}

/// While a construct is served, the sites of each of its jobs that isn't done are fresh.
pub fn jobs_not_done_are_fresh()
    ensures { JobsNotDoneAreFresh }
{}

/// The sites of a span that a hart has to skip are fresh.
pub fn next_passes_are_fresh()
    ensures { NextPassesAreFresh }
{}

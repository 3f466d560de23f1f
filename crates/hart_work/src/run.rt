//! What all calls of one run have in common.
use site_steps::SiteTree;
use std::alloc::{AllocError, Global};

/// What all calls of one run have in common, and no call changes. It is copied from call to call.
pub struct Run<'x, R, F> {
    /// The runtime, by which a hart blocks and waits.
    pub rt: &'x R,
    /// The allocator of the machines and schedulers.
    pub alloc: Global,
    /// The plan of the run, with the children of each site.
    pub tree: &'x SiteTree,
    /// The gate. A hart that has taken a job calls it before the job's first step, with the hart's number and the job, or in
    /// `hart_loop` with the job's site, phase and index.
    pub pass: &'x F,
}

impl<'x, R, F> Copy for Run<'x, R, F> {}

impl<'x, R, F> Clone for Run<'x, R, F> {
    fn clone(&self) -> Result<Self, AllocError> {
        Ok(*self)
    }
}

//! Laws of constructs that are handed out. No code here runs: each function's contract is a law, and its body is empty.
ghost use Rattle.step_eval.specs.Phases.{JobsAreRounds, JobsAreCounted, JobsAreGroups, PhasesAreMerged, PhasesAreConstructs};

/// The jobs of a phase do what its pieces do, in the order of their indices.
pub fn jobs_are_rounds()
    ensures { JobsAreRounds }
{}

/// The jobs of a phase are as many as the construct has branches or members.
pub fn jobs_are_counted()
    ensures { JobsAreCounted }
{}

/// The jobs of a phase are a group: 1 to 64, alike, each with its index.
pub fn jobs_are_groups()
    ensures { JobsAreGroups }
{}

/// The pieces of the jobs of a phase, merged in any order, are what the phase writes.
pub fn phases_are_merged()
    ensures { PhasesAreMerged }
{}

/// Phase after phase, each from the store that the phase before left, the pieces are what the construct writes and leaves.
pub fn phases_are_constructs()
    ensures { PhasesAreConstructs }
{}

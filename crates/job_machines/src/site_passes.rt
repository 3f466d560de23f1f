//! How a machine passes sites if both sides of an `if` may have some: the sites that a hart has to skip, and those that it
//! still enters.
//!
//! Begin with `specs/Entering.antt`; `step_eval` has the machines, and the tests of `piece_tests` step them.

ghost use Rattle.job_machines.specs.Passes.{PassesAreWithin};
ghost use Rattle.job_machines.specs.Entering.{RestIsCounted, StepsPassSites, SuppliesPassSites, JobsEnterTheConstruct};

/// The sites that a hart has to skip are among the remaining ones.
pub fn passes_are_within()
    ensures { PassesAreWithin }
{}

/// There is a flag for each remaining site, whether it is still entered.
pub fn rest_is_counted()
    ensures { RestIsCounted }
{}

/// A step that hands out no construct passes only sites that aren't entered.
pub fn steps_pass_sites()
    ensures { StepsPassSites }
{}

/// A construct is entered with the sites that it enters inside.
pub fn supplies_pass_sites()
    ensures { SuppliesPassSites }
{}

/// A construct that is handed out is entered, and inside it the sites that its jobs enter, phase after phase.
pub fn jobs_enter_the_construct()
    ensures { JobsEnterTheConstruct }
{}

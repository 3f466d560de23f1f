//! The numbers of sites and the plan: from the remaining works of a machine to the construct that it hands out, and from a
//! construct to the jobs of its pieces.
//!
//! Begin with `specs/Planned.antt`; `step_eval` has machines and jobs, and the tests of `piece_tests` compare their numbers.

ghost use Rattle.job_machines.specs.Planned.{WorksStayPlanned, ConstructsArePlanned, JobsArePlanned, JobsAreNumberedAbove, StepsRaiseNumbers};
ghost use Rattle.job_machines.specs.Numbers.{JobsHaveTheSitesInside};

/// After a step, the plan has the sites of a machine's works.
pub fn works_stay_planned()
    ensures { WorksStayPlanned }
{}

/// The plan has the site of the next construct inside the site around, followed by the sites inside it.
pub fn constructs_are_planned()
    ensures { ConstructsArePlanned }
{}

/// The plan has the sites inside a construct at the numbers of its pieces' jobs.
pub fn jobs_are_planned()
    ensures { JobsArePlanned }
{}

/// The sites inside a job of a construct have greater numbers than the construct's own.
pub fn jobs_are_numbered_above()
    ensures { JobsAreNumberedAbove }
{}

/// The jobs of all phases of a construct together have exactly the sites inside it, each once.
pub fn jobs_have_the_sites_inside()
    ensures { JobsHaveTheSitesInside }
{}

/// A step of a machine that goes on doesn't lower the number of the next site, which begins at the job's first.
pub fn steps_raise_numbers()
    ensures { StepsRaiseNumbers }
{}

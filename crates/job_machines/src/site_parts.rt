//! The sites of a machine's works, of the constructs that it hands out and of their jobs are whole subtrees of the plan. So a
//! hart that skips them skips complete subtrees.
//!
//! Begin with `specs/Parts.antt`; `entered_laws` defines parts, and the tests of `piece_tests` step machines over such sites.

ghost use Rattle.job_machines.specs.Parts.{WorksStayParts, WholeWorksArePassed, PassesAreSpans, ConstructsAreParts, JobsAreParts, BodiesAreParts};

/// After a step the sites of a machine's works are parts of the plan.
pub fn works_stay_parts()
    ensures { WorksStayParts }
{}

/// A work without a site in it or after it may be left out.
pub fn whole_works_are_passed()
    ensures { WholeWorksArePassed }
{}

/// The sites that a hart has to skip are whole subtrees.
pub fn passes_are_spans()
    ensures { PassesAreSpans }
{}

/// The site of the next construct is inside the site around, and the sites inside it follow as a part.
pub fn constructs_are_parts()
    ensures { ConstructsAreParts }
{}

/// The sites of each job of a construct are a part inside the construct's site.
pub fn jobs_are_parts()
    ensures { JobsAreParts }
{}

/// The sites of a program's body are a part inside the base.
pub fn bodies_are_parts()
    ensures { BodiesAreParts }
{}

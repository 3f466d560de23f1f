//! The meaning of the array language: what a program computes, what its parts touch, and what is accepted.
//!
//! The crate holds definitions and laws, for authors of checkers and evaluators and for auditors. No code here runs: each
//! function's contract is a law, and its body is empty.
//!
//! Begin with `final_store` in `specs/Work.antt`, the store that a program leaves, and `IsAccepted` in `specs/Accepted.antt`.
//! The evaluator `run_one` of `array_eval` computes `final_store`, and the tests of `language_tests` run it on programs.
#![tactic(auto)]

ghost use Rattle.array_meaning.specs.Laws.{WritesDependOnReads, ArePiecesIndependent, AreBranchesIndependent, AreMembersIndependent, ApartIsTested, ClashesAreTested, LeastClashIsReported, PlansAreRight, SitesArePlanned, EnteredSitesAreCounted, EnteredDependsOnReads, BranchesEnterAlone, MembersEnterAlone, StayInsideParts, LaterPartsAreOutside};

/// What steps write depends only on what they read.
pub fn writes_depend_on_reads()
    ensures { WritesDependOnReads }
{}

/// Pieces that are apart, each run from the same store and merged in any order, result in the same store as one after another.
pub fn pieces_are_independent()
    ensures { ArePiecesIndependent }
{}

/// The branches of a `par`, if they are apart, write what the `par` writes, merged in any order.
pub fn branches_are_independent()
    ensures { AreBranchesIndependent }
{}

/// The members of one phase of a `team`, if they are apart, write what the loop over all iterations writes, merged in any
/// order.
pub fn members_are_independent()
    ensures { AreMembersIndependent }
{}

/// Pieces are apart exactly if no cell passes the test of an overlap.
pub fn apart_is_tested()
    ensures { ApartIsTested }
{}

/// A cell passes the test of an overlap exactly if one piece changes it and another reads or changes it.
pub fn clashes_are_tested()
    ensures { ClashesAreTested }
{}

/// The reported cell of an overlap is the least one on which two different pieces clash.
pub fn least_clash_is_reported()
    ensures { LeastClashIsReported }
{}

/// In the plan of a program each parent comes before its site, and each site of the program has one.
pub fn plans_are_right()
    ensures { PlansAreRight }
{}

/// The sites that are checked for overlaps are as many as those of the plan.
pub fn sites_are_planned()
    ensures { SitesArePlanned }
{}

/// There is a flag for each site of the plan, whether the meaning enters the site.
pub fn entered_sites_are_counted()
    ensures { EnteredSitesAreCounted }
{}

/// The sites that a part enters depend only on what it reads.
pub fn entered_depends_on_reads()
    ensures { EnteredDependsOnReads }
{}

/// So branches that are apart enter the same sites, each from the same store, as one after another.
pub fn branches_enter_alone()
    ensures { BranchesEnterAlone }
{}

/// Members of one phase that are apart enter the same sites, each from the same store, as the loop over all iterations.
pub fn members_enter_alone()
    ensures { MembersEnterAlone }
{}

/// The sites of every part of a program are inside the construct around it or inside each other.
pub fn parts_stay_inside()
    ensures { StayInsideParts }
{}

/// If parts follow one another, no site of a later part is inside a site of an earlier one.
pub fn later_parts_are_outside()
    ensures { LaterPartsAreOutside }
{}

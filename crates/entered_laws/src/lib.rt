//! The accounts of a program's sites. The sites of each part of the program are whole subtrees of the plan. If each site has
//! ended as the meaning enters it (unregistered if entered, otherwise skipped), the journal is complete.
//!
//! The crate holds definitions and laws. No code here runs: each function's contract is a law, and its body is empty. Begin
//! with `specs/Meant.antt`; `transfer_table` has accounts, and the tests of `language_tests` show which sites programs enter.
#![tactic(auto)]

ghost use Rattle.entered_laws.specs.Meant.{PartsAreSpans, ProgramsAreParts, EnteredIsComplete, EverySiteHasAFlag, AllSitesAreEntered};

/// The sites of a part are whole subtrees inside the site around it.
pub fn parts_are_spans()
    ensures { PartsAreSpans }
{}

/// The whole program is such a part, inside the base.
pub fn programs_are_parts()
    ensures { ProgramsAreParts }
{}

/// A legal list is complete if at its end each site of a program has ended as the meaning enters it.
pub fn entered_is_complete()
    ensures { EnteredIsComplete }
{}

/// There is a flag for each site of a program's plan, whether the meaning enters the site.
pub fn every_site_has_a_flag()
    ensures { EverySiteHasAFlag }
{}

/// A program without a construct under an `if` enters every site of its plan.
pub fn all_sites_are_entered()
    ensures { AllSitesAreEntered }
{}

//! Accounts of the sites of a plan: which sites have ended as they are meant to, and which are fresh (neither registered nor
//! skipped).
//!
//! A hart that runs a part of a program alone takes fresh sites, and ends them as the part means them. The sites of each part
//! are an interval of numbers, so accounts join like lists, and the account of the whole program implies that its journal is
//! complete.
//!
//! Begin with `specs/Accounts.antt`. `table_tests` has examples of the entries, `hart_work` and `lone_hart` use the laws.

ghost use Rattle.transfer_table.specs.AccountLaws.{OverLasts, OverJoins, SkippedAreOver, OverHaveEnded, AllAreFreshAtFirst, FreshJoins, FreshLasts, KeptJoins, EntriesTouchLittle, SpansAreSkippedByTheirTops, FreshSpansAreSkipped, AllOverIsComplete};

/// Sites that have ended as meant stay so.
pub fn over_lasts()
    ensures { OverLasts }
{}

/// Two neighbouring ranges have ended as meant together exactly if each has.
pub fn over_joins()
    ensures { OverJoins }
{}

/// Sites that aren't meant to be entered have ended exactly if each was skipped.
pub fn skipped_are_over()
    ensures { SkippedAreOver }
{}

/// A site that has ended as meant was unregistered or skipped.
pub fn over_have_ended()
    ensures { OverHaveEnded }
{}

/// Before the first entry, every site is fresh.
pub fn all_are_fresh_at_first()
    ensures { AllAreFreshAtFirst }
{}

/// Two neighbouring ranges are fresh together exactly if each is.
pub fn fresh_joins()
    ensures { FreshJoins }
{}

/// Fresh sites stay fresh while the entries are about other sites.
pub fn fresh_lasts()
    ensures { FreshLasts }
{}

/// Entries that touch only sites inside wider bounds touch nothing outside of them.
pub fn kept_joins()
    ensures { KeptJoins }
{}

/// An appended entry touches its own site, or a span around a site that it skips.
pub fn entries_touch_little()
    ensures { EntriesTouchLittle }
{}

/// If the topmost sites of a span were skipped, all its sites were.
pub fn spans_are_skipped_by_their_tops()
    ensures { SpansAreSkippedByTheirTops }
{}

/// Skips of a fresh span's sites, made until each topmost one is claimed, end all its sites as skipped and touch nothing else.
pub fn fresh_spans_are_skipped()
    ensures { FreshSpansAreSkipped }
{}

/// A legal list is complete if all sites of the plan have ended as meant.
pub fn all_over_is_complete()
    ensures { AllOverIsComplete }
{}

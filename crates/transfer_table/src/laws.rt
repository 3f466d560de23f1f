//! The laws of the table, each the contract of a function with an empty body. They hold for every plan and every list of
//! entries; `specs/Laws.antt` defines them.
ghost use Rattle.transfer_table.specs.Laws.{AllowedIsAdmitted, EntriesAreInThePlan, HartsAreConserved, HomesStayInside, IdleHartsStay, LegalListsAreShort, NewRowsAreBlank, ParentsOutliveChildren, PrefixesAreLegal, RowsReportEntries, SitesBeginOnce, SitesComeAndGoOnce, WishesBalance, ChildrenOfNewAreNew, WithinIsTested};

/// Every owner is the base or a live site, and the harts that the base and the sites hold are all
/// harts.
pub fn harts_are_conserved()
    ensures { HartsAreConserved }
{}

/// The parent of a live site is the base or live, and every child of a gone site is gone.
pub fn parents_outlive_children()
    ensures { ParentsOutliveChildren }
{}

/// The home of a live site is a hart whose owner is the site or a descendant of it.
pub fn homes_stay_inside()
    ensures { HomesStayInside }
{}

/// Only the site's home requests. A site's enters and wishes add up to the harts that it requested, at most all but one.
pub fn wishes_balance()
    ensures { WishesBalance }
{}

/// A legal list has at most `S * (3n - 1)` entries, for `S` sites and `n` harts.
pub fn legal_lists_are_short()
    ensures { LegalListsAreShort }
{}

/// In a complete list every owner is the base at the end. Each meant site was registered exactly once
/// and unregistered exactly once. Each other site was never registered, and exactly one entry skips
/// it, or a site around it.
pub fn sites_come_and_go_once()
    ensures { SitesComeAndGoOnce }
{}

/// Each prefix of a legal list is legal.
pub fn prefixes_are_legal()
    ensures { PrefixesAreLegal }
{}

/// The table admits an entry exactly if the entry is allowed, and then the entry has its effect.
pub fn allowed_is_admitted()
    ensures { AllowedIsAdmitted }
{}

/// The hart and the site of every entry of a legal list are the plan's.
pub fn entries_are_in_the_plan()
    ensures { EntriesAreInThePlan }
{}

/// The row of a new site is blank.
pub fn new_rows_are_blank()
    ensures { NewRowsAreBlank }
{}

/// A hart that made no entry is in the base, and the home of no site.
pub fn idle_harts_stay()
    ensures { IdleHartsStay }
{}

/// `is_within` is true exactly of a site and its descendants.
pub fn within_is_tested()
    ensures { WithinIsTested }
{}

/// Every child of a new site is new.
pub fn children_of_new_are_new()
    ensures { ChildrenOfNewAreNew }
{}

/// The row of a site shows how often it was registered, unregistered and skipped.
pub fn rows_report_entries()
    ensures { RowsReportEntries }
{}

/// A site is registered or skipped at most once. A site that was unregistered, or skipped itself, is gone. A gone site that was
/// neither registered nor skipped itself has a gone parent.
pub fn sites_begin_once()
    ensures { SitesBeginOnce }
{}

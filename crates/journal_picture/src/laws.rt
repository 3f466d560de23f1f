//! The laws of stays, of the strip, of faults, of the numbers of sites and harts, and of escaped texts, each the contract of a
//! function that does nothing. They hold for every plan and every list of entries. They are stated in `specs/Laws.antt`,
//! `specs/Strip.antt`, `specs/Faults.antt`, `specs/Visits.antt` and `specs/Travels.antt`.
ghost use Rattle.journal_picture.specs.Laws.{EscapedHasNoMarkup, OneStayAtEachPlace, StaysFollowOneAnother, GuestsAreWithTheHome};
ghost use Rattle.journal_picture.specs.Faults.{FaultHasItsReason, FaultIsIncomplete};
ghost use Rattle.journal_picture.specs.Visits.{GuestsAreAtMost, GuestsAreReached, MetWishesEntered};
ghost use Rattle.journal_picture.specs.Travels.{EntriesAreMade, StaysAreMoves, VisitedHasPlace};
ghost use Rattle.journal_picture.specs.Kinds.{KindHasItsName, KindHasNoMarkup};
ghost use Rattle.journal_picture.specs.Strip.{RedIsMissed, StripHasFigures};

/// At each place up to which a list is legal each hart is in exactly one of its stays, and that is at the site that holds it.
pub fn one_stay_at_each_place()
    ensures { OneStayAtEachPlace }
{}

/// The stays of a hart follow one another without a gap, from the first place on; the last one has no end.
pub fn stays_follow_one_another()
    ensures { StaysFollowOneAnother }
{}

/// As long as a hart is at a site, the site's home is at the site or at one within it.
pub fn guests_are_with_the_home()
    ensures { GuestsAreWithTheHome }
{}

/// As far as a list is legal, the strip has at each place the figures of the table's state there.
pub fn strip_has_figures()
    ensures { StripHasFigures }
{}

/// The strip is red exactly where some live child of the base has an unmet wish while a hart other than hart 0 is in the base.
pub fn red_is_missed()
    ensures { RedIsMissed }
{}

/// Whatever the verdict's line is, its escaped form has no `<`.
pub fn escaped_has_no_markup()
    ensures { EscapedHasNoMarkup }
{}

/// A picture has a fault exactly if the list isn't complete for the sites that are meant to be entered.
pub fn fault_is_incomplete()
    ensures { FaultIsIncomplete }
{}

/// The fault's words name a condition that fails: of the refused entry in the state after the entries before it, or at the end of the
/// list.
pub fn fault_has_its_reason()
    ensures { FaultHasItsReason }
{}

/// As far as a list is legal, a site has in each state at most the guests of the table of sites.
pub fn guests_are_at_most()
    ensures { GuestsAreAtMost }
{}

/// A legal list has a place at which a site has the guests of the table of sites.
pub fn guests_are_reached()
    ensures { GuestsAreReached }
{}

/// Of a legal list, the requested and the met wishes of a site are as many as its entries say.
pub fn met_wishes_entered()
    ensures { MetWishesEntered }
{}

/// A site counts for a hart of a legal list exactly if the hart is there at some place.
pub fn visited_has_place()
    ensures { VisitedHasPlace }
{}

/// A hart of a legal list has one stay more than there are entries that move it.
pub fn stays_are_moves()
    ensures { StaysAreMoves }
{}

/// The harts of a legal list made all its entries.
pub fn entries_are_made()
    ensures { EntriesAreMade }
{}

/// A kind has the name that it was made with.
pub fn kind_has_its_name()
    ensures { KindHasItsName }
{}

/// The name of no kind has a `<`.
pub fn kind_has_no_markup()
    ensures { KindHasNoMarkup }
{}

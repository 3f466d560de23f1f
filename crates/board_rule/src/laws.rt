//! What each kind of step does, each law the contract of a function with an empty body. `specs/StepLaws.antt` defines them.
//! Each step changes the view of its own seat alone; a split also makes the new seat's, and a join changes two.
ghost use Rattle.board_rule.specs.StepLaws.{ClaimKeeps, JotKeeps, CreditKeeps, GlanceKeeps, SeeGoneKeeps, SeeDrainedKeeps, SeeEmptyKeeps, ReserveKeeps, LandKeeps, LeaveKeeps, CloseKeeps, SealKeeps, SplitKeeps, JoinKeeps, RegisterAppends, RequestAppends, EnterAppends, YieldAppends, UnregisterAppends, SkipAppends, GoneStaysGone, WantsBalance, GuestsAreShown, GuestsAreFew};
ghost use Rattle.board_rule.specs.declared.layout.Layout.{Layout};

/// A claim keeps the invariant and the journal.
pub fn claim_keeps()
    ensures { (lay : Layout) → ClaimKeeps lay }
{}

/// Writing an entry at its index keeps the invariant and the journal.
pub fn jot_keeps()
    ensures { (lay : Layout) → JotKeeps lay }
{}

/// Adding to the want of a site keeps the invariant and the journal.
pub fn credit_keeps()
    ensures { (lay : Layout) → CreditKeeps lay }
{}

/// A look at a site keeps the invariant and the journal.
pub fn glance_keeps()
    ensures { (lay : Layout) → GlanceKeeps lay }
{}

/// A look that may see a site gone keeps the invariant and the journal.
pub fn see_gone_keeps()
    ensures { (lay : Layout) → SeeGoneKeeps lay }
{}

/// A look that may see the owner without a guest keeps the invariant and the journal.
pub fn see_drained_keeps()
    ensures { (lay : Layout) → SeeDrainedKeeps lay }
{}

/// A look at the owners in the first word that may see the owner empty keeps the invariant and the journal.
pub fn see_empty_keeps()
    ensures { SeeEmptyKeeps }
{}

/// An exchange that reserves a hart, won or lost, keeps the invariant and the journal.
pub fn reserve_keeps()
    ensures { (lay : Layout) → ReserveKeeps lay }
{}

/// A landing keeps the invariant and the journal.
pub fn land_keeps()
    ensures { (lay : Layout) → LandKeeps lay }
{}

/// Leaving a site's guests keeps the invariant and the journal.
pub fn leave_keeps()
    ensures { (lay : Layout) → LeaveKeeps lay }
{}

/// Closing a site keeps the invariant and the journal.
pub fn close_keeps()
    ensures { (lay : Layout) → CloseKeeps lay }
{}

/// Sealing a site, after its Unregister or its Skip, keeps the invariant and the journal.
pub fn seal_keeps()
    ensures { (lay : Layout) → SealKeeps lay }
{}

/// Making the next hart's seat keeps the invariant and the journal.
pub fn split_keeps()
    ensures { (lay : Layout) → SplitKeeps lay }
{}

/// Joining another hart's seat keeps the invariant and the journal.
pub fn join_keeps()
    ensures { (lay : Layout) → JoinKeeps lay }
{}

/// The step of a register keeps the invariant and appends its entry, which the table admits.
pub fn register_appends()
    ensures { (lay : Layout) → RegisterAppends lay }
{}

/// The step of a request keeps the invariant and appends its entry, which the table admits.
pub fn request_appends()
    ensures { (lay : Layout) → RequestAppends lay }
{}

/// The step of an enter keeps the invariant and appends its entry, which the table admits.
pub fn enter_appends()
    ensures { (lay : Layout) → EnterAppends lay }
{}

/// The step of a yield keeps the invariant and appends its entry, which the table admits.
pub fn yield_appends()
    ensures { (lay : Layout) → YieldAppends lay }
{}

/// The step of an unregister keeps the invariant and appends its entry, which the table admits.
pub fn unregister_appends()
    ensures { (lay : Layout) → UnregisterAppends lay }
{}

/// The step of a skip keeps the invariant and appends its entry, which the table admits.
pub fn skip_appends()
    ensures { (lay : Layout) → SkipAppends lay }
{}

/// A gone site stays gone over every entry.
pub fn gone_stays_gone()
    ensures { (lay : Layout) → GoneStaysGone lay }
{}

/// The harts that a site requested are its want, the harts that are reserved to it or have entered, and those not yet added to
/// the want.
pub fn wants_balance()
    ensures { (lay : Layout) → WantsBalance lay }
{}

/// By guests a site's word has the number of its guests, and a site that isn't live has none.
pub fn guests_are_shown()
    ensures { GuestsAreShown }
{}

/// By guests the want and the guests of a site's word are each at most all harts but one.
pub fn guests_are_few()
    ensures { GuestsAreFew }
{}

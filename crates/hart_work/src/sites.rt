//! A hart's sites.
ghost use Rattle.std.specs.Prelude.{◌≡◌, ◌<◌, ◌≤◌, ℕ, List, [], ◌∷◌, ◌++◌, Option, Some, IsSome, IsErr, IfOk, true, false};
ghost use Rattle.std.specs.Option.{ForSome};
ghost use Rattle.transfer_table.specs.Plan.{Plan, IsPlan};
ghost use Rattle.transfer_table.specs.declared.entry.Entry.{Entry};
ghost use Rattle.transfer_table.specs.declared.entry.Entry.TheVariants.{Register, Unregister};
ghost use Rattle.sched_api.specs.declared.hearing.Told.{Told};
ghost use Rattle.hart_work.specs.Callbacks.{callback_with};
ghost use Rattle.hart_work.specs.Accounts.{HaveEnded};
ghost use Rattle.hart_work.specs.Sites.{SiteFacts, Stays, Gives};

use crate::machines::Machines;
use sched_api::{Call, Next, Told};
use std::alloc::{AllocError, Global};

/// The schedulers of sites, as one hart has them. Calls may block if other harts share the schedulers.
pub trait Sites<R, M: Machines> {
    /// One site's scheduler, or the base's.
    type Site: Drop;

    /// The identity of the hart-local state that the hart was lent for all sites.
    type HartLocal;

    /// Its hart-local state. No call changes it.
    ghost hart_local: { Self → Self.HartLocal };

    /// Whether the hart keeps an account of its entries for each site. A hart that shares the table keeps none.
    ghost keeps: { Type 0 };

    /// What contracts see of a site.
    ghost facts: { SiteFacts Self.Site M.Job M.Nested };

    /// A relation of the site, the callback that its scheduler gets, and the site afterwards.
    ghost hears: { Self.Site → Told → Self.Site → Type 0 };

    /// A scheduler for a construct, for all harts that enter its site.
    ///
    /// # Errors
    ///
    /// `AllocError` if an allocation fails.
    fn open(&mut self, alloc: Global, nested: &M::Nested) -> Result<Self::Site, AllocError>
        ensures construct { IfOk result (λ site. facts.construct site ≡ Some nested.now) }
        ensures settled { IfOk result (λ site. facts.settled site) }
        ensures serving { IfOk result (λ site. keeps → (p : Plan) (around : ℕ) (es : List Entry) (hart : ℕ)
            → IsPlan p → M.fresh p around es nested.now → facts.serving site p (M.number_of nested.now)
            (es ++ Register hart (M.number_of nested.now) ∷ [])
            (es ++ Register hart (M.number_of nested.now) ∷ [])) }
        ensures hart_local { hart_local self.new ≡ hart_local self.old };

    /// The number of harts, besides its home, for which the site has work.
    fn wishes(&self, site: &Self::Site) -> u8;

    /// The scheduler of a site that another hart opened.
    fn find(&mut self, rt: &R, number: u16) -> Option<Self::Site>
        ensures number { ForSome result (λ site. facts.number site ≡ number) }
        ensures settled { ForSome result (λ site. facts.settled site) }
        ensures hart_local { hart_local self.new ≡ hart_local self.old };

    /// The site's number; 0 is the base.
    fn number(&self, site: &Self::Site) -> u16
        ensures { result ≡ facts.number site.now };

    /// Makes the callback of the site's scheduler.
    fn hear(&mut self, rt: &R, site: &mut Self::Site, call: Call, child: u16, count: u8) -> Told
        ensures told { result ≡ callback_with call child count }
        ensures hears { hears site.old (callback_with call child count) site.new }
        ensures stays { Stays facts site.old site.new }
        ensures hart_local { hart_local self.new ≡ hart_local self.old };

    /// The next action of the hart. A home gets `Nothing` only if the site's work is done.
    fn next(&mut self, rt: &R, site: &mut Self::Site) -> Next<M::Job>
        ensures number { facts.number site.new ≡ facts.number site.old }
        ensures gives { facts.settled site.old
            → Gives facts M.fresh_job site.old result site.new }
        ensures hart_local { hart_local self.new ≡ hart_local self.old };

    /// Whether the hart tries again to enter the site, after another hart moved in between. Only a hart that keeps an account of
    /// its entries gives up, since there is no other hart that could move.
    fn tries_again(&mut self, rt: &R, site: &mut Self::Site) -> bool
        ensures alone { result ≡ false → keeps }
        ensures stays { Stays facts site.old site.new }
        ensures left { result ≡ true → facts.left site.new < facts.left site.old }
        ensures hart_local { hart_local self.new ≡ hart_local self.old };

    /// Offers the pieces of a site that the hart opened and has registered to the harts that it requests next.
    fn offer(&mut self, rt: &R, site: &Self::Site)
        ensures { hart_local self.new ≡ hart_local self.old };

    /// Gives the site a piece that is done.
    fn deposit(&mut self, rt: &R, alloc: Global, site: &mut Self::Site, piece: M::Piece)
        requires { facts.owed site.old (M.job_in piece) }
        ensures construct { facts.construct site.new ≡ facts.construct site.old }
        ensures settled { facts.settled site.new }
        ensures served { (p : Plan) (around : ℕ) (start es es' : List Entry)
            → facts.lent site.old (M.job_in piece) p around start es
            → M.ran_job p es es' (M.job_in piece)
            → facts.serving site.new p around start es' }
        ensures left { facts.left site.new ≤ facts.left site.old }
        ensures hart_local { hart_local self.new ≡ hart_local self.old };

    /// Reports that an allocation failed for the piece of this phase at this index.
    fn fail(&mut self, rt: &R, site: &mut Self::Site, phase: u8, place: u8)
        requires { (job : M.Job) × facts.owed site.old job
            × (M.phase_of job ≡ phase) × (M.place_of job ≡ place) }
        ensures construct { facts.construct site.new ≡ facts.construct site.old }
        ensures settled { facts.settled site.new }
        ensures served { (job : M.Job) (p : Plan) (around : ℕ) (start es es' : List Entry)
            → facts.lent site.old job p around start es → facts.serving site.new p around start es' }
        ensures left { facts.left site.new ≤ facts.left site.old }
        ensures hart_local { hart_local self.new ≡ hart_local self.old };

    /// Whether a piece of the site has failed.
    fn has_failed(&mut self, rt: &R, site: &Self::Site) -> bool
        ensures ended { result ≡ false → facts.over site.now → (p : Plan) (around : ℕ)
            (start es : List Entry) → IsPlan p → facts.serving site.now p around start es
            → HaveEnded p around es }
        ensures failed { result ≡ true → (p : Plan) (around : ℕ) (start es : List Entry)
            → facts.serving site.now p around start es → facts.failed site.now }
        ensures hart_local { hart_local self.new ≡ hart_local self.old };

    /// The writes of all pieces of a site whose work is done. If the scheduler isn't handed out, the hart computes the
    /// construct itself.
    ///
    /// # Errors
    ///
    /// `AllocError` if a piece has failed, or an allocation fails.
    fn take(&mut self, rt: &R, alloc: Global, site: Self::Site) -> Result<M::Written, AllocError>
        requires construct { IsSome (facts.construct site) }
        requires over { facts.over site }
        ensures written { (nested : M.Nested) → facts.construct site ≡ Some nested → IfOk result
            (λ written. M.written_in written ≡ M.writes_of nested) }
        ensures failed { facts.failed site → IsErr result }
        ensures ran { (nested : M.Nested) → facts.construct site ≡ Some nested → IfOk result (λ _.
            (p : Plan) (before es : List Entry) (hart : ℕ) → IsPlan p
            → facts.serving site p (M.number_of nested)
            (before ++ Register hart (M.number_of nested) ∷ []) es
            → M.ran p before (es ++ Unregister hart (M.number_of nested) ∷ []) nested) }
        ensures hart_local { hart_local self.new ≡ hart_local self.old };
}

//! Schedulers, as a hart calls them.
ghost use Rattle.std.specs.Prelude.{◌≡◌, ℕ, Result, IfErr};
ghost use Rattle.sched_api.specs.declared.hearing.Told.{Told};
ghost use Rattle.sched_api.specs.declared.scheduler.Next.{Next};
ghost use Rattle.sched_api.specs.Calls.{registered_told, unregistered_told, requested_told, yielded_told, blocked_told};

use crate::hearing::{Hearing, Told};

/// The next action of a hart.
#[derive(Clone, Copy, Debug, PartialEq, Eq, Drop)]
pub enum Next<C> {
    /// The hart runs this context.
    Run(C),
    /// The hart tries to enter the child of this site.
    Lend(u16),
    /// The scheduler has nothing for the hart to do.
    Nothing,
}

/// The result of a try to enter a child.
#[derive(Clone, Copy, Debug, PartialEq, Eq, Drop)]
pub enum Lent<C> {
    /// The hart is in the child, which returned its next action.
    Inside(Next<C>),
    /// The site word `shown` wants no hart.
    NotWanted { shown: u64 },
    /// The word `read` wants a hart, but the exchange found another word, `found`.
    Moved { read: u64, found: u64 },
}

/// One hart's hand on one scheduler. No call allocates, except `enter` of a pipe's hand.
pub trait Scheduler {
    /// What a call needs from the runtime.
    type Hold: Copy;

    /// The receipt of a callback.
    type Heard: Hearing;

    /// The contexts that the scheduler runs.
    type Ctx;

    /// The scheduler's site.
    ghost site_of: { Self → ℕ };

    /// A relation of a scheduler, the result of `enter`, and the scheduler afterwards.
    ghost answers: { Self → Next Self.Ctx → Self → Type 0 };

    /// A relation of a scheduler, the callback that it gets, and the scheduler afterwards.
    ghost hears: { Self → Told → Self → Type 0 };

    /// A relation of a scheduler, a context that waits no longer, the result, and the scheduler afterwards.
    ghost takes: { Self → Self.Ctx → Result (Unit {0}) Self.Ctx → Self → Type 0 };

    /// The scheduler's site; 0 is the base.
    fn site(&self) -> u16
        ensures { result ≡ site_of self.now };

    /// A child has registered.
    fn register(&mut self, hold: Self::Hold, child: u16) -> Self::Heard
        ensures told { Self.Heard.heard result ≡ registered_told child }
        ensures hears { hears self.old (registered_told child) self.new }
        ensures site { site_of self.new ≡ site_of self.old };

    /// A child has unregistered. The scheduler drops the child's wishes.
    fn unregister(&mut self, hold: Self::Hold, child: u16) -> Self::Heard
        ensures told { Self.Heard.heard result ≡ unregistered_told child }
        ensures hears { hears self.old (unregistered_told child) self.new }
        ensures site { site_of self.new ≡ site_of self.old };

    /// A child requests `count` harts. A wish may stay unmet.
    fn request(&mut self, hold: Self::Hold, child: u16, count: u8) -> Self::Heard
        ensures told { Self.Heard.heard result ≡ requested_told child count }
        ensures hears { hears self.old (requested_told child count) self.new }
        ensures site { site_of self.new ≡ site_of self.old };

    /// A hart came back from a child.
    fn yielded(&mut self, hold: Self::Hold, child: u16) -> Self::Heard
        ensures told { Self.Heard.heard result ≡ yielded_told child }
        ensures hears { hears self.old (yielded_told child) self.new }
        ensures site { site_of self.new ≡ site_of self.old };

    /// The next action of a hart that comes to the scheduler.
    fn enter(&mut self, hold: Self::Hold) -> Next<Self::Ctx>
        ensures does { answers self.old result self.new }
        ensures site { site_of self.new ≡ site_of self.old };

    /// A context waits at a mutex, which keeps it.
    fn block(&mut self, hold: Self::Hold) -> Self::Heard
        ensures told { Self.Heard.heard result ≡ blocked_told }
        ensures hears { hears self.old (blocked_told) self.new }
        ensures site { site_of self.new ≡ site_of self.old };

    /// A context waits no longer. The scheduler takes it, as `takes` states.
    ///
    /// # Errors
    ///
    /// The context itself if the scheduler doesn't take it.
    fn unblock(&mut self, hold: Self::Hold, c: Self::Ctx) -> Result<(), Self::Ctx>
        ensures back { IfErr result (λ back. back ≡ c) }
        ensures takes { takes self.old c result self.new }
        ensures site { site_of self.new ≡ site_of self.old };
}

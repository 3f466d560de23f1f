//! References to schedulers.
ghost use Rattle.std.specs.Prelude.{◌≡◌};
ghost use Rattle.deque_rows.specs.Rows.{identity as rows_identity};
ghost use Rattle.claim_words.specs.Seats.{identity as seat_identity};
ghost use Rattle.shared_sites.specs.References.{PoolFits, TeamFits};

use base_sched::SharedBase;
use deque_rows::HartRows;
use forkjoin_sched::{PoolHand, SharedPool};
use loop_team::{ClaimSeat, ClaimTable, SharedTeam, TeamHand};
use pipe_sched::SharedPipe;

/// A scheduler that harts share, with the position of the site's deque or counters.
#[derive(Clone, Copy)]
pub enum SchedulerRef<'b, 'p> {
    /// The base.
    Base(&'b SharedBase),
    /// A pool, with its deque.
    Pool(PoolRef<'b, 'p>),
    /// A team, with its claim counters.
    Team(TeamRef<'b, 'p>),
    /// A pipe, under its lock.
    Pipe(&'b SharedPipe<'p>),
    /// No scheduler, or one for which the hart has no deque or counters; no run gets such a reference. Its calls do nothing.
    NoScheduler,
}

/// A pool, with the hart whose deque has the job indices of its pieces, and the level of that deque.
#[derive(Clone, Copy)]
pub struct PoolRef<'b, 'p> {
    pub(crate) shared: &'b SharedPool<'p>,
    pub(crate) home: u8,
    pub(crate) level: u8,
}

impl<'b, 'p> PoolRef<'b, 'p> {
    /// A hand on the pool, with the deques of the hart.
    pub(crate) fn hand<'r, R>(self, rows: &'r mut HartRows) -> PoolHand<'b, 'r, 'p, R>
        requires fits { PoolFits (rows_identity rows.old) self }
        ensures pool { result.shared.now ≡ self.entry.shared.now }
        ensures name { result.rows.ghost_name ≡ rows.entry.ghost_name }
        ensures rows { result.rows.now ≡ rows.old }
        ensures row { (result.home ≡ self.entry.home) × (result.level ≡ self.entry.level) }
    {
        PoolHand::new(self.shared, rows, self.home, self.level)
    }
}

/// A team, with the table by which its members are claimed, and the counter of its first phase.
#[derive(Clone, Copy)]
pub struct TeamRef<'b, 'p> {
    pub(crate) shared: &'b SharedTeam<'p>,
    pub(crate) claims: &'b ClaimTable,
    pub(crate) row: u16,
}

impl<'b, 'p> TeamRef<'b, 'p> {
    /// A hand on the team, with the hart's seat.
    pub(crate) fn hand<'r, R>(self, seat: &'r mut ClaimSeat) -> TeamHand<'b, 'r, 'p, R>
        requires fits { TeamFits (seat_identity seat.old) self }
        ensures team { result.shared.now ≡ self.entry.shared.now }
        ensures name { result.seat.ghost_name ≡ seat.entry.ghost_name }
        ensures seat { result.seat.now ≡ seat.old }
    {
        TeamHand::new(self.shared, self.claims, seat, self.row)
    }
}

//! The hart-local state for all sites: its deques, its seat, and the counters of each site.
ghost use Rattle.std.specs.Prelude.{◌≡◌, ◌<◌, ◌≤◌, ◌+◌, ◌↔◌, [], None, false, IsTrue, IfOk, IfSome, length, map, option_map, reverse, vec_len};
ghost use Rattle.std.specs.Option.{ForSome};
ghost use Rattle.deque_rows.specs.Rows.{IsLevel, home_log, row_room, identity as rows_identity};
ghost use Rattle.claim_words.specs.Seats.{IsOf, identity as seat_identity};
ghost use Rattle.shared_sites.specs.References.{Fits, PoolFits, TeamFits, HasNoCounters, IsRefTo};
ghost use Rattle.shared_sites.specs.Completed.{IsCompleted};
ghost use Rattle.shared_sites.specs.HartLocals.{AreHartLocals};
ghost use Rattle.shared_sites.specs.Keeping.{handed_to, HandsOver, StillKeeps};
ghost use Rattle.hart_work.specs.Callbacks.{callback_with};
ghost use Rattle.forkjoin_sched.specs.Batches.{emptied};

use crate::claims::Claims;
use crate::completed::Completed;
use crate::kept::keep;
use crate::scheduler_ref::SchedulerRef::{Base, NoScheduler, Pipe, Pool, Team};
use crate::scheduler_ref::{PoolRef, SchedulerRef, TeamRef};
use crate::shared_site::SharedSite;
use array_jobs::{Job, Piece};
use base_sched::SharedBaseHand;
use crossbeam_utils::Backoff;
use deque_rows::HartRows;
use forkjoin_sched::{NotAdded, PieceBatch, SharedPool};
use hart_work::{call_back, callback_with};
use loop_team::{ClaimSeat, SharedTeam};
use pipe_sched::PipeHand;
use sched_api::{Call, Next, Scheduler, Told};
use std::alloc::{AllocError, Global};
use std::marker::Model;
use std::sync::Wait;
use step_eval::{Kind, Nested, Work};

/// The hart-local state for all sites: its access to the deques, its seat of the claim table, and the counters of each site.
///
/// Contracts see its identities and the run's claim counters, which no call changes.
#[derive(Drop)]
pub struct HartLocal<'t> {
    rows: HartRows,
    seat: ClaimSeat,
    claims: &'t Claims,
    harts: u8,
}

impl<'t> Model for HartLocal<'t> {
    ghost use Rattle.std.specs.Prelude.{◌≡◌};
    ghost use Rattle.claim_words.specs.Seats.{IsOf, identity as seat_identity};
    ghost use Rattle.deque_rows.specs.Rows.{identity as rows_identity};
    ghost use Rattle.shared_sites.specs.Identities.{HartLocalIdentities, identities_of};

    ghost Value = { HartLocalIdentities };

    ghost view = { λ t. identities_of t.rows t.seat t.claims.now };

    ghost invariant = { λ t. IsOf t.claims.now.table (seat_identity t.seat)
        × ((rows_identity t.rows).harts ≡ t.harts) };
}

impl<'t> HartLocal<'t> {
    /// The hart-local state that a hart is lent for a run of `harts` harts.
    fn new(rows: HartRows, seat: ClaimSeat, claims: &'t Claims, harts: u8) -> HartLocal<'t>
        requires harts { (rows_identity rows).harts ≡ harts }
        requires of { IsOf claims.now.table (seat_identity seat) }
        ensures rows { result.rows ≡ rows_identity rows }
        ensures seat { result.seat ≡ seat_identity seat }
    {
        HartLocal {
            rows,
            seat,
            claims,
            harts,
        }
    }

    /// The deques and the seat.
    pub fn into_parts(self) -> (HartRows, ClaimSeat)
        ensures rows { rows_identity result.0 ≡ self.entry.rows }
        ensures seat { seat_identity result.1 ≡ self.entry.seat }
    {
        let HartLocal {
            rows,
            seat,
            claims: _,
            harts: _,
        } = self;
        (rows, seat)
    }

    /// The hart of this state.
    pub fn hart(&self) -> u8
        ensures { result ≡ self.now.rows.hart }
    {
        self.rows.hart()
    }

    /// The level of a site.
    pub fn level(&self, site: u16) -> u8 {
        self.claims.level(site)
    }

    /// Whether all jobs of the construct have room in this hart's deque of this level. A `team` needs no room.
    pub fn has_room(&self, level: u8, nested: &Nested<'_>) -> bool {
        match nested.kind() {
            Kind::Par => is_level(level) && has_room(&self.rows, level, nested.members() as usize),
            Kind::Team => true,
        }
    }

    /// A pool with its deque. `None` exactly if there is no such deque.
    fn pool_ref<'b, 'p>(
        &self,
        pool: &'b SharedPool<'p>,
        home: u8,
        level: u8,
    ) -> Option<PoolRef<'b, 'p>>
        ensures fits { ForSome result (λ found. PoolFits self.now.rows found) }
        ensures pool { ForSome result (λ found. (found.shared.now ≡ pool.now)
            × (found.home ≡ home) × (found.level ≡ level)) }
        ensures none { result ≡ None → IsLevel level → home < self.now.rows.harts → ⊥ }
    {
        if is_level(level) && home < self.harts {
            Some(PoolRef {
                shared: pool,
                home,
                level,
            })
        } else {
            None
        }
    }

    /// A team with its claim counters. `None` exactly if the table doesn't have those that it needs.
    fn team_ref<'b, 'p>(&self, team: &'b SharedTeam<'p>) -> Option<TeamRef<'b, 'p>>
    where
        't: 'b,
        ensures fits { ForSome result (λ found. TeamFits self.now.seat found) }
        ensures team { ForSome result (λ found. found.shared.now ≡ team.now) }
        ensures none { result ≡ None → HasNoCounters self.now team.now }
    {
        let claims = self.claims;
        let row = claims.row_of(team.nested())?;
        Some(TeamRef {
            shared: team,
            claims: &claims.table,
            row,
        })
    }

    /// The reference to a scheduler that harts share, at a site of this level. `NoScheduler` only for a pool without a deque, for a
    /// team without claim counters, and for `Alone`.
    pub fn scheduler_ref<'b, 'p>(
        &self,
        shared: &'b SharedSite<'p>,
        level: u8,
    ) -> SchedulerRef<'b, 'p>
    where
        't: 'b,
        ensures fits { Fits self.now result }
        ensures finds { IsRefTo self.now shared.now level result }
    {
        match shared {
            SharedSite::Pool { home, pool } => match self.pool_ref(pool, *home, level) {
                Some(pool) => Pool(pool),
                None => NoScheduler,
            },
            SharedSite::Team(team) => match self.team_ref(team) {
                Some(team) => Team(team),
                None => NoScheduler,
            },
            SharedSite::Pipe(pipe) => Pipe(pipe),
            SharedSite::Alone => NoScheduler,
        }
    }

    /// Makes the callback of the scheduler, if there is one.
    pub fn hear<'b, R: Wait + 'b>(
        &mut self,
        rt: &'b R,
        scheduler_ref: SchedulerRef<'b, '_>,
        call: Call,
        child: u16,
        count: u8,
    ) -> Told
        requires { Fits self.old scheduler_ref }
        ensures told { result ≡ callback_with call child count }
        ensures hart_local { self.new ≡ self.old }
    {
        match scheduler_ref {
            Base(base) => call_back(&mut SharedBaseHand::new(base), rt, call, child, count),
            Pool(pool) => call_back(&mut pool.hand(&mut self.rows), rt, call, child, count),
            Team(team) => call_back(&mut team.hand(&mut self.seat), rt, call, child, count),
            Pipe(pipe) => call_back(&mut PipeHand::new(pipe), rt, call, child, count),
            NoScheduler => callback_with(call, child, count),
        }
    }

    /// The next action of a hart that is inside. A guest gets `Nothing` if there is nothing to do. The hart at the base and the
    /// home back off until there is something to do, or their work is done. A hart that gets no job hands over the pieces that it
    /// keeps.
    pub fn next<'b, 'p, R: Wait + 'b>(
        &mut self,
        rt: &'b R,
        scheduler_ref: SchedulerRef<'b, 'p>,
        kept: &mut Option<PieceBatch<'p>>,
        is_home: bool,
    ) -> Next<Job<'p>>
        requires { Fits self.old scheduler_ref }
        ensures hart_local { self.new ≡ self.old }
        ensures kept { HandsOver scheduler_ref.entry kept.old result kept.new }
    {
        let is_guest = !is_home && !matches!(scheduler_ref, Base(_));
        let backoff = Backoff::new();
        'looks: for _ in rt.forever() {
            if self.is_over(rt, scheduler_ref, is_home) {
                let _ = self.hand_over(rt, scheduler_ref, kept);
                return Next::Nothing;
            }
            match self.look(rt, scheduler_ref) {
                Next::Run(Work::Begin(job)) => return Next::Run(job),
                // No run has such a context, since no piece waits at a mutex.
                Next::Run(Work::Ready(_)) => {}
                Next::Lend(child) => {
                    let _ = self.hand_over(rt, scheduler_ref, kept);
                    return Next::Lend(child);
                }
                Next::Nothing => {
                    let had_any = self.hand_over(rt, scheduler_ref, kept);
                    if is_guest {
                        return Next::Nothing;
                    }
                    if !had_any {
                        backoff.snooze();
                    }
                }
            }
        }
        unreachable!()
    }

    // Hands over the pieces that the hart keeps, if the scheduler is a pool. Returns whether there were any.
    fn hand_over<'b, 'p, R: Wait + 'b>(
        &mut self,
        rt: &'b R,
        scheduler_ref: SchedulerRef<'b, 'p>,
        kept: &mut Option<PieceBatch<'p>>,
    ) -> bool
        requires { Fits self.old scheduler_ref }
        ensures hart_local { self.new ≡ self.old }
        ensures kept { kept.new ≡ handed_to scheduler_ref.entry kept.old }
        ensures any { result ≡ false → kept.new ≡ kept.old }
    {
        match scheduler_ref {
            Pool(pool) => hand_over_in(rt, pool, &mut self.rows, kept),
            Base(_) | Team(_) | Pipe(_) | NoScheduler => { false }
        }
    }

    // The action that the scheduler returns for a hart inside.
    fn look<'b, 'p, R: Wait + 'b>(
        &mut self,
        rt: &'b R,
        scheduler_ref: SchedulerRef<'b, 'p>,
    ) -> Next<Work<'p>>
        requires { Fits self.old scheduler_ref }
        ensures { self.new ≡ self.old }
    {
        match scheduler_ref {
            Base(base) => match SharedBaseHand::new(base).enter(rt) {
                Next::Lend(child) => Next::Lend(child),
                Next::Run(()) | Next::Nothing => Next::Nothing,
            },
            Pool(pool) => pool.hand(&mut self.rows).enter(rt),
            Team(team) => team.hand(&mut self.seat).enter(rt),
            Pipe(pipe) => PipeHand::new(pipe).enter(rt),
            NoScheduler => Next::Nothing,
        }
    }

    // Whether a hart has to leave although it might get more: the base if it is shut, and the home if the work of its site is
    // done. It is checked before each task.
    fn is_over<'b, R: Wait + 'b>(
        &mut self,
        rt: &'b R,
        scheduler_ref: SchedulerRef<'b, '_>,
        is_home: bool,
    ) -> bool
        requires { Fits self.old scheduler_ref }
        ensures { self.new ≡ self.old }
    {
        match scheduler_ref {
            Base(base) => base.is_shut(),
            Pool(pool) => is_home && pool.hand::<R>(&mut self.rows).is_full(rt),
            Team(team) => is_home && team.hand::<R>(&mut self.seat).is_over(rt),
            Pipe(pipe) => is_home && PipeHand::<R>::new(pipe).is_full(rt),
            NoScheduler => true,
        }
    }

    /// Offers the pieces of the site to all harts. Those of a team and of a pipe are always offered.
    pub fn offer<'b, R: Wait + 'b>(&mut self, rt: &'b R, scheduler_ref: SchedulerRef<'b, '_>)
        requires { Fits self.old scheduler_ref }
        ensures { self.new ≡ self.old }
    {
        if let Pool(pool) = scheduler_ref {
            offer_in(rt, pool, &mut self.rows);
        }
    }

    /// Gives the scheduler a piece that is done. A pool's piece is kept, to hand it over with others, if the pool's jobs are known
    /// to start from the store of the piece's job. Otherwise the pool gets it at once. A piece that is a stranger to the scheduler
    /// is dropped.
    ///
    /// # Errors
    ///
    /// `AllocError` if an allocation fails. A pool gets the piece nonetheless.
    pub fn deposit<'b, 'p, R: Wait + 'b>(
        &mut self,
        rt: &'b R,
        alloc: Global,
        scheduler_ref: SchedulerRef<'b, 'p>,
        kept: &mut Option<PieceBatch<'p>>,
        piece: Piece<'p>,
    ) -> Result<(), AllocError>
        requires { Fits self.old scheduler_ref }
        ensures hart_local { self.new ≡ self.old }
        ensures kept { StillKeeps scheduler_ref.entry kept.old piece.entry result kept.new }
    {
        match scheduler_ref {
            Pool(pool) => match keep(alloc, pool.shared, kept, piece) {
                Ok(()) => Ok(()),
                Err(NotAdded::OtherStart(piece)) => {
                    let _ = pool.hand::<R>(&mut self.rows).deposit(rt, piece);
                    Ok(())
                }
                Err(NotAdded::OutOfMemory(piece)) => {
                    let _ = pool.hand::<R>(&mut self.rows).deposit(rt, piece);
                    Err(AllocError)
                }
            },
            Team(team) => {
                let _ = team.hand::<R>(&mut self.seat).arrive(rt, piece)?;
                Ok(())
            }
            Pipe(pipe) => {
                let _ = PipeHand::<R>::new(pipe).deposit(rt, piece);
                Ok(())
            }
            Base(_) | NoScheduler => Ok(()),
        }
    }

    /// Reports that an allocation failed for the piece of this phase at this index. A pool has one phase, and a team takes its
    /// current phase.
    pub fn fail<'b, R: Wait + 'b>(
        &mut self,
        rt: &'b R,
        scheduler_ref: SchedulerRef<'b, '_>,
        phase: u8,
        place: u8,
    )
        requires { Fits self.old scheduler_ref }
        ensures { self.new ≡ self.old }
    {
        match scheduler_ref {
            Pool(pool) => pool.hand::<R>(&mut self.rows).fail(rt, place),
            Team(team) => team.hand::<R>(&mut self.seat).fail(rt, place),
            Pipe(pipe) => PipeHand::<R>::new(pipe).fail(rt, place, phase),
            _ => {}
        }
    }

    /// Whether a piece failed, so that sites inside may be missing. They may also be missing if the hart computes the construct
    /// by itself: true for `NoScheduler`.
    pub fn has_failed<'b, R: Wait + 'b>(
        &mut self,
        rt: &'b R,
        scheduler_ref: SchedulerRef<'b, '_>,
    ) -> bool
        requires { Fits self.old scheduler_ref }
        ensures { self.new ≡ self.old }
    {
        match scheduler_ref {
            Base(_) => false,
            Pool(pool) => pool.hand::<R>(&mut self.rows).has_failed(rt),
            Team(team) => team.hand::<R>(&mut self.seat).has_failed(rt),
            Pipe(pipe) => PipeHand::<R>::new(pipe).has_failed(rt),
            NoScheduler => true,
        }
    }

    /// Hands the scheduler out, once, if its work is done.
    pub fn take_out<'b, 'p, R: Wait + 'b>(
        &mut self,
        rt: &'b R,
        scheduler_ref: SchedulerRef<'b, 'p>,
    ) -> Option<Completed<'p>>
        requires { Fits self.old scheduler_ref }
        ensures completed { IfSome result IsCompleted }
        ensures hart_local { self.new ≡ self.old }
    {
        match scheduler_ref {
            Pool(pool) => {
                let taken = pool.hand::<R>(&mut self.rows).take_out(rt);
                Some(Completed::Pool(taken?))
            }
            Team(team) => {
                let taken = team.hand::<R>(&mut self.seat).take_out(rt);
                Some(Completed::Team(taken?))
            }
            Pipe(pipe) => Some(Completed::Pipe(PipeHand::<R>::new(pipe).take_out(rt)?)),
            _ => None,
        }
    }
}

// Whether the level has deques.
fn is_level(level: u8) -> bool
    ensures { IsTrue result ↔ IsLevel level }
{
    1 <= level && level <= 3
}

/// The hart-local states of a run, by their deques and their seats of the claim table. They are in reverse order: popping
/// returns those of the first hart first.
///
/// # Errors
///
/// `AllocError` if an allocation fails.
///
/// # Memory
///
/// It allocates the list.
pub fn hart_locals_of<'x>(
    alloc: Global,
    claims: &'x Claims,
    mut rows: Vec<HartRows>,
    mut seats: Vec<ClaimSeat>,
) -> Result<Vec<HartLocal<'x>>, AllocError>
    requires count { vec_len seats ≡ vec_len rows }
    requires hart_local { AreHartLocals claims.now.table rows.items seats.items }
    ensures rows { IfOk result
        (λ hart_local. map (λ t. t.rows) (reverse hart_local.items) ≡ map rows_identity rows.items) }
    ensures seats { IfOk result
        (λ hart_local. map (λ t. t.seat) (reverse hart_local.items) ≡ map seat_identity seats.items) }
{
    let harts = rows.len() as u8;
    let mut hart_local = Vec::with_capacity(alloc, rows.len())?;
    while let Some(own) = rows.pop() {
        let Some(seat) = seats.pop() else {
            unreachable!()
        };
        hart_local.push(HartLocal::new(own, seat, claims, harts))?;
    }
    Ok(hart_local)
}

/// Pushes the job indices of the pool onto the deque of this hart, if it is the home and the deque has room for all of them.
pub(crate) fn offer_in<'b, 'p, R: Wait + 'b>(rt: &'b R, pool: PoolRef<'b, 'p>, rows: &mut HartRows)
    requires { PoolFits (rows_identity rows.old) pool }
    ensures { rows_identity rows.new ≡ rows_identity rows.old }
{
    if pool.home == rows.hart() && has_room(rows, pool.level, pool.shared.jobs().len()) {
        pool.hand(rows).offer(rt);
    }
}

// Puts all kept pieces into the pool. Returns whether there were any.
fn hand_over_in<'b, 'p, R: Wait + 'b>(
    rt: &'b R,
    pool: PoolRef<'b, 'p>,
    rows: &mut HartRows,
    kept: &mut Option<PieceBatch<'p>>,
) -> bool
    requires { PoolFits (rows_identity rows.old) pool }
    ensures rows { rows_identity rows.new ≡ rows_identity rows.old }
    ensures kept { kept.new ≡ option_map emptied kept.old }
    ensures any { result ≡ false → kept.new ≡ kept.old }
{
    let Some(batch) = kept else { return false };
    if batch.is_empty() {
        return false;
    }
    pool.hand(rows).hand_over(rt, batch);
    true
}

// Whether the hart's deque of this level has room for `count` job indices.
fn has_room(rows: &HartRows, level: u8, count: usize) -> bool
    requires { IsLevel level }
    ensures { IsTrue result
        → count + length (home_log rows.now level).pushed ≤ row_room rows.now level }
{
    count <= rows.room(level) as usize
}

//! A hart's hand on a team that harts share.
ghost use Rattle.std.specs.Prelude.{◌≡◌, ◌<◌, IfSome, IfOk, IfErr};
ghost use Rattle.lithe_barrier.specs.Arrivals.{GivesBack};
ghost use Rattle.claim_words.specs.Seats.{IsOf, identity};
ghost use Rattle.loop_team.specs.declared.found.Found.TheVariants.{Unlooked};
ghost use Rattle.loop_team.specs.Rows.{RowsFit};

use crate::found::Found;
use crate::shared::SharedTeam;
use crate::team::{Team, TeamHeard, TeamWork, heard};
use array_jobs::Piece;
use claim_words::{ClaimSeat, ClaimTable, Claimed};
use lithe_barrier::Arrival;
use sched_api::{Call, Next, Scheduler, take_lock};
use std::alloc::AllocError;
use std::marker::PhantomData;
use std::sync::Wait;

/// The greatest number of snoozes of a hart that finds nothing inside one call of `enter`, before it returns `Nothing`.
///
/// Why: a guest that leaves between two phases doesn't come back, since the wish that it met is spent.
const SNOOZES: u32 = 100;

/// One hart's hand on a shared team. It claims the members of the current phase with the hart's seat, without the lock. Its
/// other calls do what those of `Team` do, under the lock. Each may block, except `site` and the callbacks that change no list.
/// Once the team is handed out, `enter` returns `Nothing` and `unblock` returns its context.
///
/// If `enter` finds nothing and another phase follows, it snoozes, a bounded number of times, until the team changes, and looks
/// again.
pub struct TeamHand<'a, 'r, 'p, R> {
    pub seat: &'r mut ClaimSeat,
    pub shared: &'a SharedTeam<'p>,
    pub claims: &'a ClaimTable,
    /// The claim counter of the first phase.
    pub row: u16,
    /// The number of looks under the lock.
    pub looks: u64,
    /// The result of the last of these looks.
    pub found: Found,
    pub of: PhantomData<R>,
    pub ghost seated: { IsOf claims.now (identity seat.now) },
    pub ghost fits: { RowsFit claims.now.counts.items row shared.now },
}

impl<'a, 'r, 'p, R> Drop for TeamHand<'a, 'r, 'p, R> {
    fn drop(self)
        ensures { self.exit.0.now ≡ self.entry.seat.now }
    {
        let TeamHand {
            seat: _,
            shared: _,
            claims: _,
            row: _,
            looks: _,
            found: _,
            of: _,
        } = self;
    }
}

impl<'a, 'r, 'p, R> TeamHand<'a, 'r, 'p, R> {
    /// A hand on the team, with the hart's seat of the claim table. `row` is the counter of the team's first phase. Does not
    /// block.
    pub fn new(
        shared: &'a SharedTeam<'p>,
        claims: &'a ClaimTable,
        seat: &'r mut ClaimSeat,
        row: u16,
    ) -> TeamHand<'a, 'r, 'p, R>
        requires seat { IsOf claims.now (identity seat.old) }
        requires rows { RowsFit claims.now.counts.items row shared.now }
        ensures team { result.shared.now ≡ shared.now }
        ensures rows { (result.claims.now ≡ claims.now) × (result.row ≡ row) }
        ensures name { result.seat.ghost_name ≡ seat.entry.ghost_name }
        ensures seat { result.seat.now ≡ seat.old }
        ensures unlooked { (result.looks ≡ 0) × (result.found ≡ Unlooked) }
    {
        TeamHand {
            seat,
            shared,
            claims,
            row,
            looks: 0,
            found: Found::Unlooked,
            of: PhantomData,
        }
    }
}

impl<'a, 'r, 'p, R: Wait + 'a> TeamHand<'a, 'r, 'p, R> {
    ghost use Rattle.loop_team.specs.Hands.{HasLooked, HasTried, Turns};
    ghost use Rattle.loop_team.specs.Looks.{ReportsReady, ReportsRest};
    ghost use Rattle.loop_team.specs.Teams.{IsOver, phases_in};

    /// Takes a piece to its slot in the current phase. The last piece of a phase opens the next phase, if there is one.
    ///
    /// If the team was handed out, it returns each piece as a `Stranger`. May block.
    ///
    /// # Errors
    ///
    /// `AllocError` if an allocation fails.
    ///
    /// # Memory
    ///
    /// It allocates the jobs and the barrier of the next phase.
    pub fn arrive(&self, rt: &R, piece: Piece<'p>) -> Result<Arrival<'p>, AllocError>
        ensures { IfOk result (λ arrival. GivesBack piece.entry arrival) }
    {
        self.shared.arrive(rt, piece)
    }

    /// Marks the team as failed, under its lock: an allocation failed for the piece at index `place` of the current phase. May
    /// block.
    ///
    /// It does nothing if the slot doesn't exist in the current phase, if its piece has come, or if the team was handed out.
    pub fn fail(&self, rt: &R, place: u8) {
        let shared = self.shared;
        if let Some(team) = take_lock(&shared.lock, rt).as_mut() {
            if shared.is_open(rt, place) {
                shared.fail(team, place);
            }
        }
    }

    /// Whether the last phase of the team has opened or the team is failed. A team that was handed out counts as done. It takes
    /// the lock only if the flag beside the lock shows a done team.
    pub fn is_over(&self, rt: &R) -> bool {
        let shared = self.shared;
        if !shared.shows_over() {
            return false;
        }
        match take_lock(&shared.lock, rt).as_ref() {
            Some(team) => team.is_over(),
            None => true,
        }
    }

    /// Whether the team is failed; false if the team was handed out.
    pub fn has_failed(&self, rt: &R) -> bool {
        let shared = self.shared;
        match take_lock(&shared.lock, rt).as_ref() {
            Some(team) => team.has_failed(),
            None => false,
        }
    }

    /// Hands the team out, once. `None` exactly if it was handed out before, or isn't done; nothing changes then.
    pub fn take_out(&self, rt: &R) -> Option<Team<'p>>
        ensures { IfSome result (λ team. IsOver team) }
    {
        let shared = self.shared;
        let mut kept = take_lock(&shared.lock, rt);
        match kept.as_ref() {
            Some(team) if team.is_over() => shared.shut(),
            Some(_) => return None,
            None => return None,
        }
        kept.take()
    }

    // Looks for the hart's next action, once. `None` if the hand has to look again.
    fn turn(&mut self, rt: &R, snoozes: &mut u32) -> Option<Next<TeamWork<'p>>>
        ensures { Turns self.old result self.new }
    {
        let seen = self.shared.changes();
        let Some(phase) = self.shared.phase() else {
            return self.look_ready(rt);
        };
        match self.claim(phase) {
            Claimed::Member(place) => {
                let job = self.shared.take_member(rt, phase, place)?;
                Some(Next::Run(TeamWork::Begin(job)))
            }
            Claimed::NoneLeft { shown: _ } => self.look_rest(rt, phase, seen, snoozes),
        }
    }

    // Claims a member of a phase.
    fn claim(&mut self, phase: u8) -> Claimed
        requires { phase < phases_in self.old.shared.now }
        ensures { HasTried self.old phase result self.new }
    {
        let row = self.row + u16::from(phase);
        self.claims.claim(&mut *self.seat, row)
    }

    // Looks for a ready context under the lock. `None` if the hand has to look for more.
    fn look_ready(&mut self, rt: &R) -> Option<Next<TeamWork<'p>>>
        ensures looked { HasLooked self.old self.new }
        ensures reports { ReportsReady self.new.found result }
    {
        let (found, next) = self.shared.find_ready(rt);
        self.note(found);
        next
    }

    // Looks under the lock for the hart's next action, when no member of the phase is left. If it finds nothing, the hart stays
    // for a change of the team. `None` if the hand has to look again.
    fn look_rest(
        &mut self,
        rt: &R,
        phase: u8,
        seen: u64,
        snoozes: &mut u32,
    ) -> Option<Next<TeamWork<'p>>>
        ensures looked { HasLooked self.old self.new }
        ensures reports { ReportsRest self.new.found result }
    {
        let (found, next) = self.shared.find_rest(rt, phase);
        self.note(found);
        if found == Found::Idle {
            if let Some(left) = self.shared.stay(phase, seen, *snoozes) {
                *snoozes = left;
                return None;
            }
        }
        next
    }

    // Notes the result of a look under the lock.
    fn note(&mut self, found: Found)
        ensures looked { HasLooked self.old self.new }
        ensures found { self.new.found ≡ found }
    {
        self.looks = self.looks.saturating_add(1);
        self.found = found;
    }
}

impl<'a, 'r, 'p, R: Wait + 'a> Scheduler for TeamHand<'a, 'r, 'p, R> {
    type Hold = &'a R;

    type Heard = TeamHeard;

    type Ctx = TeamWork<'p>;

    ghost use Rattle.loop_team.specs.Hands.{Enters};

    ghost site_of = { λ hand. hand.shared.now.site };

    // Why: contracts know only the type of the lock-protected team, so any result is possible that has its cause in what the
    // call found.
    ghost answers = { λ before next after. Enters before next after };

    ghost hears = { λ before _ after. after ≡ before };

    ghost takes = { λ before c answer after. IfErr answer (λ back. back ≡ c) × (after ≡ before) };

    fn site(&self) -> u16 {
        self.shared.nested().site
    }

    fn register(&mut self, _hold: &'a R, child: u16) -> TeamHeard {
        heard(Call::Registered, child, 0)
    }

    fn unregister(&mut self, hold: &'a R, child: u16) -> TeamHeard {
        let shared = self.shared;
        match take_lock(&shared.lock, hold).as_mut() {
            Some(team) => team.unregister((), child),
            None => heard(Call::Unregistered, child, 0),
        }
    }

    fn request(&mut self, hold: &'a R, child: u16, count: u8) -> TeamHeard {
        let shared = self.shared;
        match take_lock(&shared.lock, hold).as_mut() {
            Some(team) => {
                let heard = team.request((), child, count);
                shared.count_change();
                heard
            }
            None => heard(Call::Requested, child, count),
        }
    }

    fn yielded(&mut self, _hold: &'a R, child: u16) -> TeamHeard {
        heard(Call::Yielded, child, 0)
    }

    fn enter(&mut self, hold: &'a R) -> Next<TeamWork<'p>> {
        if self.shared.shows_ready() {
            if let Some(next) = self.look_ready(hold) {
                return next;
            }
        }
        let mut snoozes = SNOOZES;
        for _ in hold.forever() {
            if let Some(next) = self.turn(hold, &mut snoozes) {
                return next;
            }
        }
        unreachable!()
    }

    fn block(&mut self, _hold: &'a R) -> TeamHeard {
        heard(Call::Blocked, 0, 0)
    }

    fn unblock(&mut self, hold: &'a R, c: TeamWork<'p>) -> Result<(), TeamWork<'p>> {
        let shared = self.shared;
        match take_lock(&shared.lock, hold).as_mut() {
            Some(team) => shared.unblock(team, c),
            None => Err(c),
        }
    }
}

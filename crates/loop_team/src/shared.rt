//! Teams that harts share.
ghost use Rattle.std.specs.Prelude.{◌≡◌, ◌<◌, IfOk, IfErr, IfSome, Some};
ghost use Rattle.lithe_barrier.specs.Arrivals.{GivesBack};
ghost use Rattle.loop_team.specs.Looks.{ReportsReady, ReportsRest};
ghost use Rattle.loop_team.specs.Teams.{phases_in};

use crate::found::Found;
use crate::stripes::{STRIPES, Stripe, hand_on};
use crate::team::{Team, TeamWork};
use array_eval::Overlay;
use array_jobs::{Job, Piece};
use crossbeam_utils::Backoff;
use lithe_barrier::Arrival;
use sched_api::{Next, Scheduler, take_lock};
use std::alloc::{AllocError, Global};
use std::marker::Model;
use std::sync::atomic::{AtomicBool, AtomicU64, Ordering};
use std::sync::{Mutex, Wait};
use step_eval::Nested;

/// A team that harts share until it is handed out. Beside the lock are its construct, which never changes, and the members of
/// the current phase, each under a lock of its own.
#[derive(Drop)]
pub struct SharedTeam<'p> {
    pub(crate) lock: Mutex<Option<Team<'p>>>,
    pub(crate) nested: Nested<'p>,
    // The member at each index, until it begins.
    slots: Vec<Mutex<Option<Job<'p>>>>,
    // The pieces of the current phase, if the team has many members. A holder of one of these locks takes no other.
    stripes: Vec<Mutex<Stripe<'p>>>,
    // The number of pieces of that phase that are still to come. It is set under the team's lock, before they can come.
    left: AtomicU64,
    // The current phase, or the last one; the number of phases once the team is handed out. Changed only under the lock.
    phase: AtomicU64,
    // The number of ready contexts. Changed only under the lock.
    ready: AtomicU64,
    // Whether the team is done. Changed only under the lock.
    over: AtomicBool,
    // The number of changes of what the team has for a hart: a phase began, a context became ready, or a child requested harts.
    // Changed only under the lock, after the change that it counts.
    changes: AtomicU64,
}

impl<'p> Model for SharedTeam<'p> {
    ghost use Rattle.std.specs.Coded.{codes};
    ghost use Rattle.array_tree.specs.contracts.tree.Arrays as arrays_type;
    ghost use Rattle.array_tree.specs.contracts.tree.Stmt as stmt_type;
    ghost use Rattle.step_eval.specs.Nests.{NestedParts};

    ghost Value = { NestedParts };

    ghost coded = { Prim.hlevel (codes, arrays_type.the_row.coded, stmt_type.the_row.coded) };

    ghost view = { λ shared. shared.nested };
}

impl<'p> SharedTeam<'p> {
    /// Puts the team under a lock, and a copy of its construct and the members that haven't begun beside it.
    ///
    /// # Errors
    ///
    /// `AllocError` if an allocation fails.
    ///
    /// # Memory
    ///
    /// It allocates a slot for each member, and the stripes of a team with many members.
    pub fn new(alloc: Global, mut team: Team<'p>) -> Result<SharedTeam<'p>, AllocError>
        ensures { IfOk result (λ shared. shared ≡ team.entry.nested) }
    {
        let nested = team.nested().copy()?;
        let phase = u64::from(running(&nested, team.opened()));
        let ready = team.ready_count() as u64;
        let over = team.is_over();
        let members = nested.members();
        let stripes = stripes_of(alloc, &team, members)?;
        let left = count_open(&team, members);
        let slots = members_of(alloc, &mut team, members)?;
        Ok(SharedTeam {
            lock: Mutex::new(Some(team)),
            nested,
            slots,
            stripes,
            left: AtomicU64::new(left),
            phase: AtomicU64::new(phase),
            ready: AtomicU64::new(ready),
            over: AtomicBool::new(over),
            changes: AtomicU64::new(0),
        })
    }

    /// The copy of the team's construct, with the variables and the store before it. Does not block.
    pub fn nested(&self) -> &Nested<'p>
        ensures { result.now ≡ self.now }
    {
        &self.nested
    }

    // The current phase, or the last one; `None` once the team is handed out.
    pub(crate) fn phase(&self) -> Option<u8>
        ensures { IfSome result (λ phase. phase < phases_in self.now) }
    {
        let phase = self.phase.load(Ordering::SeqCst);
        if phase < u64::from(self.nested.phases()) {
            Some(phase as u8)
        } else {
            None
        }
    }

    // Whether some context is ready.
    pub(crate) fn shows_ready(&self) -> bool {
        self.ready.load(Ordering::SeqCst) > 0
    }

    // Takes a piece to the team. If it is the last one of its phase, the next phase is laid out.
    pub(crate) fn arrive<R: Wait>(
        &self,
        rt: &R,
        piece: Piece<'p>,
    ) -> Result<Arrival<'p>, AllocError>
        ensures { IfOk result (λ arrival. GivesBack piece.entry arrival) }
    {
        if self.stripes.is_empty() {
            return self.arrive_alone(rt, piece);
        }
        if let Err(piece) = self.bring(rt, piece) {
            return Ok(Arrival::Stranger(piece));
        }
        if self.left.fetch_sub(1, Ordering::SeqCst) != 1 {
            return Ok(Arrival::Kept);
        }
        match self.open_phase(rt)? {
            Some(written) => Ok(Arrival::Opened(written)),
            None => Ok(Arrival::Kept),
        }
    }

    // Takes a piece to a team that has no stripes.
    fn arrive_alone<R: Wait>(&self, rt: &R, piece: Piece<'p>) -> Result<Arrival<'p>, AllocError>
        ensures { IfOk result (λ arrival. GivesBack piece.entry arrival) }
    {
        let mut kept = take_lock(&self.lock, rt);
        let Some(team) = kept.as_mut() else {
            return Ok(Arrival::Stranger(piece));
        };
        let moved = team.arrive(piece);
        self.show_over(team);
        let arrival = moved?;
        if matches!(&arrival, Arrival::Opened(_)) {
            self.go_on(rt, team)?;
        }
        Ok(arrival)
    }

    // Takes a piece to its stripe. Returns it if no slot waits for it.
    fn bring<R: Wait>(&self, rt: &R, piece: Piece<'p>) -> Result<(), Piece<'p>>
        ensures { IfErr result (λ back. back ≡ piece.entry) }
    {
        let place = piece.job.place;
        match self.stripes.get(usize::from(place % STRIPES)) {
            Some(stripe) if self.phase().is_some() => {
                take_lock(stripe, rt).arrive(place / STRIPES, piece)
            }
            _ => Err(piece),
        }
    }

    // Whether a stripe waits for the piece at this index, or the team has no stripes. The caller holds the team's lock.
    pub(crate) fn is_open<R: Wait>(&self, rt: &R, place: u8) -> bool {
        match self.stripes.get(usize::from(place % STRIPES)) {
            Some(stripe) => take_lock(stripe, rt).is_open(place / STRIPES),
            None => true,
        }
    }

    // Passes all pieces of a phase to the team, when each has come, and lays out the next phase. Returns the phase's writes.
    fn open_phase<R: Wait>(&self, rt: &R) -> Result<Option<Overlay>, AllocError> {
        let mut kept = take_lock(&self.lock, rt);
        let Some(team) = kept.as_mut() else {
            return Ok(None);
        };
        let written = self.hand_on(rt, team);
        self.show_over(team);
        let written = written?;
        if written.is_some() {
            self.go_on(rt, team)?;
        }
        Ok(written)
    }

    // Lays out the next phase, if there is one, after a phase has opened.
    fn go_on<R: Wait>(&self, rt: &R, team: &mut Team<'p>) -> Result<(), AllocError> {
        if team.is_over() {
            return Ok(());
        }
        self.lay_out(rt, team)
    }

    // Passes all pieces that have come to the lock-protected team. Returns the phase's writes, if it opens.
    fn hand_on<R: Wait>(&self, rt: &R, team: &mut Team<'p>) -> Result<Option<Overlay>, AllocError> {
        for stripe in &self.stripes {
            let written = hand_on(team, &mut *take_lock(stripe, rt))?;
            if written.is_some() {
                return Ok(written);
            }
        }
        Ok(None)
    }

    // Lays out the members of the next phase, and then shows its number. If an allocation fails, the team is failed.
    fn lay_out<R: Wait>(&self, rt: &R, team: &mut Team<'p>) -> Result<(), AllocError> {
        for slot in &self.slots {
            *take_lock(slot, rt) = team.take_member();
        }
        self.left.store(self.slots.len() as u64, Ordering::SeqCst);
        let begun = self.begin_stripes(rt, team);
        if begun.is_err() {
            self.fail(team, 0);
            return begun;
        }
        let phase = running(&self.nested, team.opened());
        self.phase.store(u64::from(phase), Ordering::SeqCst);
        self.count_change();
        Ok(())
    }

    // Opens all stripes for the pieces of the next phase.
    fn begin_stripes<R: Wait>(&self, rt: &R, team: &Team<'p>) -> Result<(), AllocError> {
        for stripe in &self.stripes {
            take_lock(stripe, rt).begin(team)?;
        }
        Ok(())
    }

    // Fails the lock-protected team, by an index whose slot is open there.
    pub(crate) fn fail(&self, team: &mut Team<'p>, place: u8) {
        if team.is_open(place) {
            team.fail(place);
            self.show_over(team);
        }
    }

    // Puts a context last on the ready list of the lock-protected team.
    pub(crate) fn unblock(&self, team: &mut Team<'p>, c: TeamWork<'p>) -> Result<(), TeamWork<'p>>
        ensures { IfErr result (λ back. back ≡ c.entry) }
    {
        team.unblock((), c)?;
        self.show_ready(team);
        self.count_change();
        Ok(())
    }

    // The number of changes of what the team has for a hart.
    pub(crate) fn changes(&self) -> u64 {
        self.changes.load(Ordering::SeqCst)
    }

    // Counts a change. The caller holds the team's lock.
    pub(crate) fn count_change(&self) {
        let _ = self.changes.fetch_add(1, Ordering::SeqCst);
    }

    // Snoozes in this phase, at most `snoozes` times, until the number of changes isn't `seen`, and returns the number of
    // snoozes left. `None` if they run out, if the team is done, and immediately in the last phase.
    pub(crate) fn stay(&self, phase: u8, seen: u64, snoozes: u32) -> Option<u32> {
        if u64::from(phase) + 1 >= u64::from(self.nested.phases()) {
            return None;
        }
        let backoff = Backoff::new();
        for left in (0..snoozes).rev() {
            if self.changes() != seen {
                return Some(left);
            }
            if self.shows_over() {
                return None;
            }
            backoff.snooze();
        }
        None
    }

    // Shows the number of ready contexts of the lock-protected team.
    fn show_ready(&self, team: &Team) {
        let ready = team.ready_count() as u64;
        self.ready.store(ready, Ordering::SeqCst);
    }

    // Whether the team was done at the end of the last call under the lock.
    pub(crate) fn shows_over(&self) -> bool {
        self.over.load(Ordering::SeqCst)
    }

    // Shows whether the lock-protected team is done.
    fn show_over(&self, team: &Team) {
        self.over.store(team.is_over(), Ordering::SeqCst);
    }

    // Looks for a ready context under the lock.
    pub(crate) fn find_ready<R: Wait>(&self, rt: &R) -> (Found, Option<Next<TeamWork<'p>>>)
        ensures { ReportsReady result.0 result.1 }
    {
        match take_lock(&self.lock, rt).as_mut() {
            Some(team) => {
                let taken = team.take_ready();
                self.show_ready(team);
                match taken {
                    Some(work) => (Found::Work, Some(Next::Run(work))),
                    None => (Found::NoneReady, None),
                }
            }
            None => (Found::HandedOut, Some(Next::Nothing)),
        }
    }

    // Looks under the lock for the hart's next action in this phase, of which no member is left.
    pub(crate) fn find_rest<R: Wait>(
        &self,
        rt: &R,
        phase: u8,
    ) -> (Found, Option<Next<TeamWork<'p>>>)
        ensures { ReportsRest result.0 result.1 }
    {
        match take_lock(&self.lock, rt).as_mut() {
            Some(team) if self.phase() == Some(phase) => {
                let next = team.enter(());
                self.show_ready(team);
                (found_by(&next), Some(next))
            }
            Some(_) => (Found::OtherPhase, None),
            None => (Found::HandedOut, Some(Next::Nothing)),
        }
    }

    // Shows that the team is handed out.
    pub(crate) fn shut(&self) {
        let phases = u64::from(self.nested.phases());
        self.phase.store(phases, Ordering::SeqCst);
    }

    // Takes the member at an index, to begin this phase. `None` if there is none, or it is another phase's, which stays.
    pub(crate) fn take_member<R: Wait>(&self, rt: &R, phase: u8, place: u8) -> Option<Job<'p>>
        ensures { IfSome result (λ job. (job.site ≡ self.now.site) × (job.phase ≡ phase)
            × (job.place ≡ place)) }
    {
        taken_of(
            &mut *take_lock(self.slots.get(usize::from(place))?, rt),
            self.nested.site,
            phase,
            place,
        )
    }
}

// The current phase if `opened` phases have opened, or the last one.
fn running(nested: &Nested, opened: u8) -> u8 {
    opened.min(nested.phases() - 1)
}

// The stripes of a team with `members` members. Why a team of few members has none: each piece of a stripe is compared once more
// when all have come, and that costs as much as the stripes save.
fn stripes_of<'p>(
    alloc: Global,
    team: &Team<'p>,
    members: u8,
) -> Result<Vec<Mutex<Stripe<'p>>>, AllocError> {
    let count = if members < 2 * STRIPES { 0 } else { STRIPES };
    let mut stripes = Vec::with_capacity(alloc, usize::from(count))?;
    for number in 0..count {
        stripes.push(Mutex::new(Stripe::new(alloc, team, number)?))?;
    }
    Ok(stripes)
}

// The number of slots, of the first `members`, that wait for their pieces.
fn count_open(team: &Team, members: u8) -> u64 {
    let mut left = 0u64;
    for place in 0..members {
        left = left.saturating_add(u64::from(team.is_open(place)));
    }
    left
}

// Takes the job if it is at this index.
fn taken_at<'p>(kept: &mut Option<Job<'p>>, place: u8) -> Option<Job<'p>>
    ensures { IfSome result (λ job. job.place ≡ place) }
{
    match kept {
        Some(job) if job.place == place => kept.take(),
        Some(_) => None,
        None => None,
    }
}

// Takes the job if it is of this site, phase and index.
fn taken_of<'p>(kept: &mut Option<Job<'p>>, site: u16, phase: u8, place: u8) -> Option<Job<'p>>
    ensures { IfSome result (λ job. (job.site ≡ site) × (job.phase ≡ phase)
        × (job.place ≡ place)) }
{
    match kept {
        Some(job) if job.site == site && job.phase == phase && job.place == place => kept.take(),
        Some(_) => None,
        None => None,
    }
}

// The members that haven't begun, each in its slot.
fn members_of<'p>(
    alloc: Global,
    team: &mut Team<'p>,
    count: u8,
) -> Result<Vec<Mutex<Option<Job<'p>>>>, AllocError> {
    let mut slots = Vec::with_capacity(alloc, usize::from(count))?;
    let mut next = team.take_member();
    for place in 0..count {
        slots.push(Mutex::new(taken_at(&mut next, place)))?;
        if next.is_none() {
            next = team.take_member();
        }
    }
    Ok(slots)
}

// The result of a look at a team that isn't handed out and returns this action.
fn found_by(next: &Next<TeamWork>) -> Found
    ensures { ReportsRest result (Some next.now) }
{
    match next {
        Next::Run(_) => Found::Work,
        Next::Lend(_) => Found::Wish,
        Next::Nothing => Found::Idle,
    }
}

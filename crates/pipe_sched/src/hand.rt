//! A hart's hand on a pipe that harts share.
ghost use Rattle.std.specs.Prelude.{◌≡◌, IfSome, IfErr};
ghost use Rattle.pipe_sched.specs.Slots.{IsFull};
ghost use Rattle.pipe_sched.specs.Hands.{GivesBack, AnswersHand};

use crate::looks::Looks;
use crate::pipe::{Pipe, PipeHeard, PipeWork, heard};
use crate::shared::SharedPipe;
use crate::under_lock;
use array_jobs::Piece;
use join_book::Deposit;
use sched_api::{Call, Next, Scheduler};
use std::marker::PhantomData;
use std::sync::Wait;

/// The greatest number of snoozes of a hart that finds nothing inside one call of `enter`, before it returns `Nothing`.
///
/// Why: a guest that leaves while pieces are out doesn't come back, since the wish that it met is spent.
const SNOOZES: u32 = 100;

/// One hart's hand on a shared pipe. Its calls do what those of `Pipe` do, under the lock. Each call may block, except `site`
/// and the callbacks that change no list. Once the pipe is handed out, `enter` returns `Nothing` and `unblock` returns its
/// context.
///
/// If `enter` finds nothing and the pipe isn't full, it snoozes, a bounded number of times, until the pipe shows beside the
/// lock that it has something for a hart, and looks again.
#[derive(Drop)]
pub struct PipeHand<'a, 'p, R> {
    /// The pipe.
    pub shared: &'a SharedPipe<'p>,
    /// The looks of this hand under the lock.
    pub looks: Looks,
    /// The runtime on which it blocks.
    pub of: PhantomData<R>,
}

impl<'a, 'p, R> PipeHand<'a, 'p, R> {
    /// A hand on the pipe. Does not block.
    pub fn new(shared: &'a SharedPipe<'p>) -> PipeHand<'a, 'p, R>
        ensures { result.shared ≡ shared.entry }
    {
        PipeHand {
            shared,
            looks: Looks::new(),
            of: PhantomData,
        }
    }
}

impl<'a, 'p, R: Wait + 'a> PipeHand<'a, 'p, R> {
    /// Puts a piece into the slot of its job, under the pipe's lock. May block.
    ///
    /// If the pipe was handed out, it returns each piece as a `Stranger`.
    pub fn deposit(&self, rt: &R, piece: Piece<'p>) -> Deposit<'p>
        ensures { GivesBack piece.entry result }
    {
        let (member, phase) = (piece.job.place, piece.job.phase);
        let mut kept = self.shared.locked(rt);
        let answer = under_lock::deposit(&mut kept, piece);
        if matches!(&answer, Deposit::Kept) {
            self.shared.shown().show_filled(&kept, member, phase);
        }
        answer
    }

    /// Reports under the pipe's lock that the piece of `member` in `phase` failed. Each piece that comes after it fails too. May
    /// block.
    ///
    /// It does nothing if the piece isn't handed out and isn't due, if it is filled or failed, or if the pipe was handed out.
    pub fn fail(&self, rt: &R, member: u8, phase: u8) {
        let mut kept = self.shared.locked(rt);
        under_lock::fail(&mut kept, member, phase);
        self.shared.shown().show_full(&kept);
    }

    /// Whether every piece of the pipe is filled or failed. A pipe that was handed out counts as full. It takes the lock only
    /// if the flag beside the lock shows a full pipe.
    pub fn is_full(&self, rt: &R) -> bool {
        if !self.shared.shown().is_full() {
            return false;
        }
        match self.shared.locked(rt).as_ref() {
            Some(pipe) => pipe.is_full(),
            None => true,
        }
    }

    /// Whether some piece of the pipe is failed; false if the pipe was handed out.
    pub fn has_failed(&self, rt: &R) -> bool {
        match self.shared.locked(rt).as_ref() {
            Some(pipe) => pipe.has_failed(),
            None => false,
        }
    }

    /// Hands the pipe out, once. `None` exactly if it was handed out before, or isn't full; nothing changes then.
    pub fn take_out(&self, rt: &R) -> Option<Pipe<'p>>
        ensures { IfSome result (λ pipe. IsFull pipe.state) }
    {
        let mut kept = self.shared.locked(rt);
        under_lock::take_full(&mut kept)
    }

    // Looks under the lock for the pipe's action for the hart.
    fn look(&mut self, rt: &R) -> Next<PipeWork<'p>>
        ensures { AnswersHand self.old result self.new }
    {
        let mut kept = self.shared.locked(rt);
        let next = self.looks.enter(&mut kept);
        self.shared.shown().show_given(&kept, &next);
        next
    }
}

impl<'a, 'p, R: Wait + 'a> Scheduler for PipeHand<'a, 'p, R> {
    type Hold = &'a R;

    type Heard = PipeHeard;

    type Ctx = PipeWork<'p>;

    ghost site_of = { λ hand. hand.shared.now.site };

    // Why: contracts know of the lock-protected pipe only what a look of the call found.
    ghost answers = { λ before next after. AnswersHand before next after };

    ghost hears = { λ before _ after. after ≡ before };

    ghost takes = { λ before c answer after. IfErr answer (λ back. back ≡ c) × (after ≡ before) };

    fn site(&self) -> u16 {
        self.shared.nested().site
    }

    fn register(&mut self, _hold: &'a R, child: u16) -> PipeHeard {
        heard(Call::Registered, child, 0)
    }

    fn unregister(&mut self, hold: &'a R, child: u16) -> PipeHeard {
        let mut kept = self.shared.locked(hold);
        under_lock::unregister(&mut kept, child)
    }

    fn request(&mut self, hold: &'a R, child: u16, count: u8) -> PipeHeard {
        let mut kept = self.shared.locked(hold);
        let heard = under_lock::request(&mut kept, child, count);
        self.shared.shown().add_offers(count);
        heard
    }

    fn yielded(&mut self, _hold: &'a R, child: u16) -> PipeHeard {
        heard(Call::Yielded, child, 0)
    }

    fn enter(&mut self, hold: &'a R) -> Next<PipeWork<'p>> {
        let mut next = self.look(hold);
        let mut snoozes = SNOOZES;
        for _ in hold.forever() {
            if !matches!(&next, Next::Nothing) {
                return next;
            }
            match self.shared.shown().stay(snoozes) {
                Some(left) => snoozes = left,
                None => return next,
            }
            next = self.look(hold);
            self.shared.shown().arrive();
        }
        unreachable!()
    }

    fn block(&mut self, _hold: &'a R) -> PipeHeard {
        heard(Call::Blocked, 0, 0)
    }

    fn unblock(&mut self, hold: &'a R, c: PipeWork<'p>) -> Result<(), PipeWork<'p>> {
        let mut kept = self.shared.locked(hold);
        under_lock::unblock(&mut kept, c)?;
        self.shared.shown().add_offers(1);
        Ok(())
    }
}

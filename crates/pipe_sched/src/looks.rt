//! The looks of a hand on a pipe under the lock.
ghost use Rattle.std.specs.Prelude.{◌≡◌, Some};
ghost use Rattle.pipe_sched.specs.Hands.{Sees, found_in, found_by, AnswersUnder};

use crate::pipe::{Pipe, PipeWork};
use sched_api::{Next, Scheduler};

/// The result of a look under the lock of a pipe.
#[derive(Clone, Copy, Debug, PartialEq, Drop)]
pub enum Found {
    /// The pipe was handed out before.
    HandedOut,
    /// No context was ready, no piece was due, and no child wished for a hart.
    NoneLeft,
    /// A ready context.
    Ready,
    /// No ready context, and the piece of this member in this phase, which was due.
    Due(u8, u8),
    /// No ready context, no due piece, and the wish of this child.
    Wish(u16),
}

/// The number of looks of a hand under the lock of its pipe, and the result of the last one. Only a look changes it.
#[derive(Drop)]
pub struct Looks {
    count: u64,
    last: Option<Found>,
}

impl Looks {
    /// No look.
    pub(crate) fn new() -> Looks {
        Looks {
            count: 0,
            last: None,
        }
    }

    // One more look, with this result.
    fn note(&mut self, found: Found)
        ensures { Sees self.old found self.new }
    {
        self.count = self.count.saturating_add(1);
        self.last = Some(found);
    }

    /// The pipe's action for a hart.
    pub(crate) fn enter<'p>(&mut self, kept: &mut Option<Pipe<'p>>) -> Next<PipeWork<'p>>
        ensures sees { Sees self.old (found_by kept.old result) self.new }
        ensures answers { AnswersUnder kept.old result kept.new }
    {
        let Some(pipe) = kept else {
            self.note(Found::HandedOut);
            return Next::Nothing;
        };
        let next = pipe.enter(());
        self.note(found_of(&next));
        next
    }
}

// The result of a look that returned this action.
fn found_of(next: &Next<PipeWork>) -> Found
    ensures { result ≡ found_in next.now }
{
    match next {
        Next::Run(PipeWork::Begin(job)) => Found::Due(job.place, job.phase),
        Next::Run(PipeWork::Ready(_)) => Found::Ready,
        Next::Lend(child) => Found::Wish(*child),
        Next::Nothing => Found::NoneLeft,
    }
}

//! The calls of a hand on the lock-protected pipe, until the pipe is handed out.
ghost use Rattle.std.specs.Prelude.{◌≡◌, IfErr};
ghost use Rattle.sched_api.specs.Calls.{unregistered_told, requested_told};
ghost use Rattle.pipe_sched.specs.Hands.{DepositsUnder, FailsUnder, HearsUnder, TakesUnder, TakesFull};

use crate::pipe::{Pipe, PipeHeard, PipeWork, heard};
use array_jobs::Piece;
use join_book::Deposit;
use sched_api::{Call, Scheduler};

// Puts a piece into the slot of its job.
pub(crate) fn deposit<'p>(kept: &mut Option<Pipe<'p>>, piece: Piece<'p>) -> Deposit<'p>
    ensures { DepositsUnder kept.old piece.entry result kept.new }
{
    match kept {
        Some(pipe) => pipe.deposit(piece),
        None => Deposit::Stranger(piece),
    }
}

// Fails a piece that is out, or due.
pub(crate) fn fail(kept: &mut Option<Pipe>, member: u8, phase: u8)
    ensures { FailsUnder kept.old member phase kept.new }
{
    if let Some(pipe) = kept {
        if pipe.may_fail(member, phase) {
            pipe.fail(member, phase);
        }
    }
}

// Takes the pipe if it is full.
pub(crate) fn take_full<'p>(kept: &mut Option<Pipe<'p>>) -> Option<Pipe<'p>>
    ensures { TakesFull kept.old result kept.new }
{
    match kept {
        Some(pipe) if pipe.is_full() => kept.take(),
        Some(_) => None,
        None => None,
    }
}

// A child has unregistered.
pub(crate) fn unregister(kept: &mut Option<Pipe>, child: u16) -> PipeHeard
    ensures told { result ≡ unregistered_told child }
    ensures hears { HearsUnder kept.old (unregistered_told child) kept.new }
{
    match kept {
        Some(pipe) => pipe.unregister((), child),
        None => heard(Call::Unregistered, child, 0),
    }
}

// A child requests harts.
pub(crate) fn request(kept: &mut Option<Pipe>, child: u16, count: u8) -> PipeHeard
    ensures told { result ≡ requested_told child count }
    ensures hears { HearsUnder kept.old (requested_told child count) kept.new }
{
    match kept {
        Some(pipe) => pipe.request((), child, count),
        None => heard(Call::Requested, child, count),
    }
}

// Puts a context last on the ready list.
pub(crate) fn unblock<'p>(kept: &mut Option<Pipe<'p>>, c: PipeWork<'p>) -> Result<(), PipeWork<'p>>
    ensures back { IfErr result (λ back. back ≡ c.entry) }
    ensures takes { TakesUnder kept.old c.entry result kept.new }
{
    match kept {
        Some(pipe) => pipe.unblock((), c),
        None => Err(c),
    }
}

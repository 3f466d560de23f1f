//! How harts get the pieces that are not begun, by the job indices of a deque.
ghost use Rattle.std.specs.Prelude.{◌≡◌, ◌<◌, ℕ, IfSome};
ghost use Rattle.deque_rows.specs.Rows.{IsLevel};
ghost use Rattle.forkjoin_sched.specs.Hands.{Keeps, HasTaken, TakesCode, TakesMore, TakesPiece, code_of};

use crate::offering::code_at;
use crate::shared::SharedPool;
use array_jobs::Job;
use deque_rows::{HartRows, Stolen};
use std::sync::Wait;

/// A piece of the pool that isn't begun, and whose job index was in the deque of this home. Drops an index of another site, and
/// one whose job is gone from its slot. Returns `None` only if the deque was found bare.
pub(crate) fn take_piece<'p, R: Wait>(
    rt: &R,
    shared: &SharedPool<'p>,
    rows: &mut HartRows,
    home: u8,
    level: u8,
) -> Option<Job<'p>>
    requires row { IsLevel level × (home < rows.old.harts) }
    ensures keeps { Keeps rows.old rows.new }
    ensures takes { TakesPiece shared.now.site home level rows.old result rows.new }
{
    for _ in rt.forever() {
        let code = take_code(rt, rows, home, level)?;
        if let Some(job) = job_of(rt, shared, code) {
            return Some(job);
        }
    }
    unreachable!()
}

// A job index of the deque: the home pops, and steals if the pop finds none; a guest steals.
fn take_code<R: Wait>(rt: &R, rows: &mut HartRows, home: u8, level: u8) -> Option<u32>
    requires row { IsLevel level × (home < rows.old.harts) }
    ensures keeps { Keeps rows.old rows.new }
    ensures more { TakesMore home level rows.old rows.new }
    ensures takes { TakesCode home level rows.old result rows.new }
{
    if rows.hart() == home {
        if let Some(code) = pop_code(rows, level) {
            return Some(code);
        }
    }
    steal_code(rt, rows, home, level)
}

// The last job index of the hart's own deque.
fn pop_code(rows: &mut HartRows, level: u8) -> Option<u32>
    requires { IsLevel level }
    ensures keeps { Keeps rows.old rows.new }
    ensures harts { rows.new.harts ≡ rows.old.harts }
    ensures more { (home : ℕ) → TakesMore home level rows.old rows.new }
    ensures taken { IfSome result
        (λ code. (home : ℕ) → home ≡ rows.old.hart
        → HasTaken home level code rows.old rows.new) }
{
    rows.pop(level)
}

// The first job index of the deque.
fn steal_code<R: Wait>(rt: &R, rows: &mut HartRows, home: u8, level: u8) -> Option<u32>
    requires row { IsLevel level × (home < rows.old.harts) }
    ensures keeps { Keeps rows.old rows.new }
    ensures more { TakesMore home level rows.old rows.new }
    ensures takes { TakesCode home level rows.old result rows.new }
{
    match rows.steal(rt, home, level) {
        Stolen::Code(code) => Some(code),
        Stolen::Empty => None,
    }
}

// The job of this job index, if it is one of this pool's and in its slot, from which it is taken.
fn job_of<'p, R: Wait>(rt: &R, shared: &SharedPool<'p>, code: u32) -> Option<Job<'p>>
    ensures { IfSome result (λ job. (job.site ≡ shared.now.site) × (code_of job ≡ code)) }
{
    let mut slot = shared.slots().get((code % 64) as usize)?.lock(rt);
    match slot.as_ref() {
        Some(job) if job.site == shared.site() && code_at(job.site, job.place) == code => {}
        Some(_) => return None,
        None => return None,
    }
    slot.take()
}

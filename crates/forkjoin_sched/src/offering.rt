//! How the jobs of a pool come to its home's deque.
ghost use Rattle.std.specs.Prelude.{◌≡◌, ◌+◌, ◌*◌, ◌≤◌, ◌<◌, ℕ, List, length};
ghost use Rattle.deque_rows.specs.Rows.{IsLevel, home_log, row_room};
ghost use Rattle.forkjoin_sched.specs.Hands.{OffersJobs, code_at};

use crate::pool::Pool;
use array_jobs::Job;
use deque_rows::HartRows;
use std::sync::{Mutex, Wait};

/// The job index of a site's piece: `64 * site + place`.
pub(crate) fn code_at(site: u16, place: u8) -> u32
    ensures { result ≡ code_at site place }
{
    64 * u32::from(site) + u32::from(place)
}

/// Moves the jobs that aren't begun into their slots, and pushes the job index of each, the last piece first.
pub(crate) fn offer_jobs<'p, R: Wait>(
    rt: &R,
    pool: &mut Pool<'p>,
    slots: &[Mutex<Option<Job<'p>>>],
    rows: &mut HartRows,
    site: u16,
    level: u8,
)
    requires level { IsLevel level }
    requires room { length slots.now + length (home_log rows.old level).pushed
        ≤ row_room rows.old level }
    ensures { (places : List ℕ)
        × OffersJobs site level (length slots.now) pool.old rows.old places pool.new rows.new }
{
    for place in (0..slots.len()).rev() {
        if let Some(job) = pool.take_last(place) {
            let code = code_at(site, job.place);
            // Why first: a hart that takes the job index then finds the job in its slot.
            *slots[place].lock(rt) = Some(job);
            rows.push(level, code);
        }
    }
}

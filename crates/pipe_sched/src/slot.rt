//! Slots for pieces.
ghost use Rattle.std.specs.Prelude.{◌≡◌, ◌↔◌, IsTrue, IfOk};
ghost use Rattle.array_meaning.specs.Stores.{after};
ghost use Rattle.pipe_sched.specs.Slots.{Waiting, Out, Filled, is_settled, is_failed};
ghost use Rattle.pipe_sched.specs.Inside.{mark_of, failed_slot, HasJob, written_in, started_from};

use array_eval::{MarkedStore, Overlay};
use array_jobs::Job;
use std::alloc::{AllocError, Global};
use std::mem;

// The state of the piece of one member in one phase.
#[derive(Debug, Drop)]
pub(crate) enum Slot<'p> {
    // The piece hasn't been handed out.
    Waiting,
    // The piece will never be handed out, since a piece before it failed.
    Barred,
    // The piece was handed out with this job.
    Out(Job<'p>),
    // The piece is done, with the job's writes.
    Filled(Job<'p>, Overlay),
    // The piece was handed out and failed.
    Lost(Job<'p>),
}

impl<'p> Slot<'p> {
    pub(crate) fn is_waiting(&self) -> bool
        ensures { IsTrue result ↔ (mark_of self.now ≡ Waiting) }
    {
        matches!(self, Slot::Waiting)
    }

    pub(crate) fn is_out(&self) -> bool
        ensures { IsTrue result ↔ (mark_of self.now ≡ Out) }
    {
        matches!(self, Slot::Out(_))
    }

    pub(crate) fn is_filled(&self) -> bool
        ensures { IsTrue result ↔ (mark_of self.now ≡ Filled) }
    {
        matches!(self, Slot::Filled(_, _))
    }

    // Whether the piece is filled or has failed.
    pub(crate) fn is_settled(&self) -> bool
        ensures { result ≡ is_settled (mark_of self.now) }
    {
        match self {
            Slot::Filled(_, _) | Slot::Barred | Slot::Lost(_) => true,
            Slot::Waiting | Slot::Out(_) => false,
        }
    }

    pub(crate) fn is_failed(&self) -> bool
        ensures { result ≡ is_failed (mark_of self.now) }
    {
        match self {
            Slot::Barred | Slot::Lost(_) => true,
            Slot::Waiting | Slot::Out(_) | Slot::Filled(_, _) => false,
        }
    }

    // Whether the piece was handed out with an equal job.
    pub(crate) fn has_job(&self, job: &Job) -> bool
        ensures { IsTrue result ↔ HasJob self.now job.now }
    {
        match self {
            Slot::Out(own) | Slot::Filled(own, _) | Slot::Lost(own) => *own == *job,
            Slot::Waiting | Slot::Barred => false,
        }
    }

    // The store that a filled piece leaves: the store from which the job started, with its writes.
    pub(crate) fn store_left(&self, alloc: Global) -> Result<MarkedStore, AllocError>
        requires { mark_of self.now ≡ Filled }
        ensures { IfOk result (λ store. store.cells ≡ after (written_in self.now) (started_from self.now)) }
    {
        match self {
            Slot::Filled(job, written) => {
                let mut store = MarkedStore::new(alloc, &job.store)?;
                store.merge(written);
                Ok(store)
            }
            Slot::Waiting | Slot::Barred | Slot::Out(_) | Slot::Lost(_) => unreachable!(),
        }
    }

    // An allocation failed for the piece, or for a piece that comes before it.
    pub(crate) fn fail(&mut self)
        ensures { self.new ≡ failed_slot self.old }
    {
        *self = match mem::replace(self, Slot::Barred) {
            Slot::Waiting => Slot::Barred,
            Slot::Out(job) => Slot::Lost(job),
            slot => slot,
        };
    }
}

//! The receipts of a scheduler's callbacks.
ghost use Rattle.std.specs.Prelude.{◌≡◌};
ghost use Rattle.sched_api.specs.declared.hearing.Told.{Told};

use std::marker::{Model, PhantomData};

/// The callbacks of which a receipt is made.
#[derive(Clone, Copy, Debug, PartialEq, Eq)]
pub enum Call {
    /// A child has registered.
    Registered,
    /// A child has unregistered.
    Unregistered,
    /// A child requests harts.
    Requested,
    /// A hart came back from a child.
    Yielded,
    /// A context waits at a mutex.
    Blocked,
}

/// A callback that a scheduler received.
#[derive(Clone, Copy, Debug, PartialEq, Eq)]
pub struct Told {
    pub call: Call,
    /// The child's site; 0 for `Blocked`.
    pub child: u16,
    /// The number of harts that the child requests; 0 for all but `Requested`.
    pub count: u8,
}

/// A receipt: the result of a scheduler's callback. Only the scheduler's own callbacks make one, so a receipt shows that the
/// callback was called. Why it is apart from `Scheduler`: the six calls can then only pass a receipt on.
pub trait Hearing: Drop {
    ghost heard: { Self → Told };

    /// The callback that was called.
    fn told(&self) -> Told
        ensures { result ≡ heard self.now };
}

/// The receipt of a scheduler whose seal is `S`. Who has no `S` can't make one, so the crate of a scheduler keeps its seal.
#[derive(Drop)]
pub struct Heard<S> {
    told: Told,
    of: PhantomData<S>,
}

impl<S> Model for Heard<S> {
    ghost use Rattle.sched_api.specs.declared.hearing.Told.{Told};

    ghost Value = { Told };

    ghost view = { λ h. h.told };
}

impl<S: Drop> Heard<S> {
    /// The receipt of this callback. Call it in the callback alone.
    pub fn new(seal: S, call: Call, child: u16, count: u8) -> Heard<S>
        ensures { result ≡ record { call = call; child = child; count = count } }
    {
        let _ = seal;
        Heard {
            told: Told { call, child, count },
            of: PhantomData,
        }
    }
}

impl<S> Hearing for Heard<S> {
    ghost heard = { λ h. h };

    fn told(&self) -> Told {
        self.told
    }
}

//! What tests of schedulers compare: what a hart finds, and the receipts of the callbacks.
#![tactic(auto)]

use sched_api::{Call, Hearing, Scheduler, Told};

/// What a hart finds when it enters a scheduler.
#[derive(Clone, Copy, Debug, PartialEq, Eq)]
pub enum Answer {
    /// The job at this index, which hasn't begun.
    Begins(u8),
    /// A ready context.
    GoesOn,
    /// The wish of this site.
    Lends(u16),
    /// Nothing to do.
    Nothing,
}

/// The receipts of a scheduler's callbacks, each called once: child 3 registers, requests a hart, gives it back and
/// unregisters, and a context waits at a mutex.
pub fn receipts<S: Scheduler>(scheduler: &mut S, hold: S::Hold) -> [Told; 5] {
    [
        scheduler.register(hold, 3).told(),
        scheduler.request(hold, 3, 1).told(),
        scheduler.yielded(hold, 3).told(),
        scheduler.unregister(hold, 3).told(),
        scheduler.block(hold).told(),
    ]
}

/// The callbacks of each scheduler's receipts.
pub const TOLD: [Told; 5] = [
    Told {
        call: Call::Registered,
        child: 3,
        count: 0,
    },
    Told {
        call: Call::Requested,
        child: 3,
        count: 1,
    },
    Told {
        call: Call::Yielded,
        child: 3,
        count: 0,
    },
    Told {
        call: Call::Unregistered,
        child: 3,
        count: 0,
    },
    Told {
        call: Call::Blocked,
        child: 0,
        count: 0,
    },
];

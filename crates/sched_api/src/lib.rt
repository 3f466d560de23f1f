//! The interface of schedulers, and the calls that move a hart between a parent and its child.
//!
//! A scheduler gets a callback when a child registers, unregisters, requests harts or gives one back, and when a context waits
//! at a mutex. Its `enter` returns the next action of a hart that comes to it. Of the six calls in `primitives.rt`, five make
//! the port's transfer and the callback that belongs to it; `sched_reenter` only calls `enter`.
//!
//! For authors of schedulers, `Wishes` keeps the children's open requests, and `Agenda` what a scheduler has for the harts that
//! come to it, in the order in which the schedulers of constructs hand it out.
//!
//! Begin with the trait `Scheduler` in `scheduler.rt`. `base_sched` and `turn_sched` are schedulers of this interface, and
//! `table_tests` has examples.
#![tactic(auto)]

mod agenda;
mod hearing;
mod lock;
mod primitives;
mod scheduler;
mod wishes;

pub use agenda::{Agenda, MOST_WISHES};
pub use hearing::{Call, Heard, Hearing, Told};
pub use lock::take_lock;
pub use primitives::{
    sched_enter, sched_reenter, sched_register, sched_request, sched_unregister, sched_yield,
};
pub use scheduler::{Lent, Next, Scheduler};
pub use wishes::Wishes;

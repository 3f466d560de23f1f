//! Callbacks as values.
ghost use Rattle.std.specs.Prelude.{◌≡◌};
ghost use Rattle.hart_work.specs.Callbacks.{callback_with};

use sched_api::{Call, Hearing, Scheduler, Told};

/// Makes the callback of the scheduler, and returns what its receipt has.
pub fn call_back<S: Scheduler>(
    scheduler: &mut S,
    hold: S::Hold,
    call: Call,
    child: u16,
    count: u8,
) -> Told
    ensures told { result ≡ callback_with call child count }
    ensures hears { S.hears scheduler.old (callback_with call child count) scheduler.new }
    ensures site { S.site_of scheduler.new ≡ S.site_of scheduler.old }
{
    let heard = match call {
        Call::Registered => scheduler.register(hold, child),
        Call::Unregistered => scheduler.unregister(hold, child),
        Call::Requested => scheduler.request(hold, child, count),
        Call::Yielded => scheduler.yielded(hold, child),
        Call::Blocked => scheduler.block(hold),
    };
    heard.told()
}

/// The callback with these arguments.
pub fn callback_with(call: Call, child: u16, count: u8) -> Told
    ensures { result ≡ callback_with call child count }
{
    let (child, count) = match call {
        Call::Registered | Call::Unregistered | Call::Yielded => (child, 0),
        Call::Requested => (child, count),
        Call::Blocked => (0, 0),
    };
    Told { call, child, count }
}

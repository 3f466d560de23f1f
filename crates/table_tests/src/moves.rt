//! Scripts: what a hart does with a scheduler, line by line, and what each line returns.
use sched_api::{Call, Hearing, Next, Scheduler, Told};

/// What a hart does with a scheduler, or a scheduler with its own lists.
#[derive(Clone, Copy, Debug, PartialEq, Eq)]
pub enum Move {
    /// It compares the site.
    IsAt(u16),
    /// It comes for its next action.
    Enter,
    /// The same by the primitive.
    Reenter,
    /// It comes so many times, and is lent to this child each time.
    Enters(u16, u16),
    /// A child registers.
    Register(u16),
    /// A child requests harts.
    Request(u16, u8),
    /// A hart came back from a child.
    Yielded(u16),
    /// A child unregisters.
    Unregister(u16),
    /// A context waits at a mutex.
    Block,
    /// It puts a context back that waits no longer.
    Unblock(char),
    /// It puts a context behind the others.
    PutLast(char),
    /// It removes all wishes for good.
    Shut,
    /// It checks whether they were removed for good.
    IsShut,
    /// It counts the ready contexts.
    CountReady,
    /// It takes the first ready context.
    TakeReady,
    /// It takes the first context that isn't begun.
    TakeUnbegun,
    /// It reads the last context that isn't begun.
    ReadLast,
    /// It takes that context.
    TakeLast,
}

/// What a move returns.
#[derive(Clone, Copy, Debug, PartialEq, Eq)]
pub enum Got {
    /// This context.
    Run(char),
    /// The wish of this site.
    Lend(u16),
    /// Nothing.
    Nothing,
    /// It is so, or was done. Of a callback, its receipt has the callback.
    Yes,
    /// It isn't so, or wasn't done.
    No,
    /// This context was refused.
    Refused(char),
    /// So many.
    Count(usize),
    /// The player lacks this move.
    NoMove,
}

/// A line of a script that returned something else.
#[derive(Clone, Copy, Debug, PartialEq, Eq)]
pub struct Wrong {
    /// The line; the first is 0.
    pub line: usize,
    /// Its move.
    pub did: Move,
    /// What the move returned.
    pub got: Got,
}

/// What plays scripts with a hold of type `H`.
pub trait Played<H> {
    /// Does a move.
    fn does(&mut self, hold: H, it: Move) -> Got;
}

/// A truth value as what a move returns.
pub fn was(it: bool) -> Got {
    if it { Got::Yes } else { Got::No }
}

/// What became of a context that was put into a list.
pub fn put(answer: Result<(), char>) -> Got {
    match answer {
        Ok(()) => Got::Yes,
        Err(context) => Got::Refused(context),
    }
}

/// What was taken from a list.
pub fn taken(context: Option<char>) -> Got {
    match context {
        Some(context) => Got::Run(context),
        None => Got::Nothing,
    }
}

/// A hart's next action.
pub fn next_of(next: Next<char>) -> Got {
    match next {
        Next::Run(context) => Got::Run(context),
        Next::Lend(site) => Got::Lend(site),
        Next::Nothing => Got::Nothing,
    }
}

/// Comes so many times. Whether it is lent to this child each time.
pub fn enters<S: Scheduler<Ctx = char>>(
    scheduler: &mut S,
    hold: S::Hold,
    times: u16,
    child: u16,
) -> Got {
    for _ in 0..times {
        if next_of(scheduler.enter(hold)) != Got::Lend(child) {
            return Got::No;
        }
    }
    Got::Yes
}

/// Compares the site, or calls a callback. Of a callback: whether its receipt has just that.
pub fn calls_back<S: Scheduler>(scheduler: &mut S, hold: S::Hold, it: Move) -> Got {
    let (told, call, child, count) = match it {
        Move::IsAt(site) => return was(scheduler.site() == site),
        Move::Register(child) => (
            scheduler.register(hold, child).told(),
            Call::Registered,
            child,
            0,
        ),
        Move::Request(child, count) => (
            scheduler.request(hold, child, count).told(),
            Call::Requested,
            child,
            count,
        ),
        Move::Yielded(child) => (
            scheduler.yielded(hold, child).told(),
            Call::Yielded,
            child,
            0,
        ),
        Move::Unregister(child) => (
            scheduler.unregister(hold, child).told(),
            Call::Unregistered,
            child,
            0,
        ),
        Move::Block => (scheduler.block(hold).told(), Call::Blocked, 0, 0),
        _ => return Got::NoMove,
    };
    was(told == Told { call, child, count })
}

/// The first line of a script that returns something else than it should.
pub fn first_wrong<H: Copy, P: Played<H>>(
    played: &mut P,
    hold: H,
    script: &[(Move, Got)],
) -> Option<Wrong> {
    for (line, (did, expected)) in script.iter().enumerate() {
        let got = played.does(hold, *did);
        if got != *expected {
            return Some(Wrong {
                line,
                did: *did,
                got,
            });
        }
    }
    None
}

//! Scripts: what a hart does with a pipeline, line by line, and what each line returns.
use pipe_sched::PipeWork;
use sample_programs::Came;
use sched_api::{Call, Hearing, Next, Scheduler, Told};
use std::alloc::Global;
use std::test::Fail;

/// What a hart does with a pipeline.
#[derive(Clone, Copy, Debug, PartialEq, Eq)]
pub enum Move {
    /// It comes for its next action.
    Enter,
    /// A child registers.
    Register(u16),
    /// A child requests harts.
    Request(u16, u8),
    /// A hart came back from a child.
    Yielded(u16),
    /// A child unregisters.
    Unregister(u16),
    /// A context waits at a mutex.
    Block,
    /// It compares the site.
    IsAt(u16),
    /// It counts the members.
    CountMembers,
    /// It puts a context back, which waits no longer.
    PutBack,
    /// It begins the piece that is due, and brings it.
    FillNext,
    /// It begins the piece that is due, and keeps it.
    KeepNext,
    /// It brings the piece that it keeps.
    BringKept,
    /// It brings the piece of this member in the first phase.
    Bring(usize),
    /// It begins the piece that is due, and reports that an allocation failed for it.
    FailNext,
    /// It reports that an allocation failed for the piece of this member in this phase.
    Fail(u8, u8),
    /// It checks whether a piece has failed.
    HasFailed,
    /// It checks whether each piece is there or has failed.
    IsFull,
    /// It takes the pipe out.
    TakeOut,
}

/// What a move returns.
#[derive(Clone, Copy, Debug, PartialEq, Eq)]
pub enum Got {
    /// The piece of this member in this phase, which hasn't begun.
    Begins(u8, u8),
    /// A ready context.
    GoesOn,
    /// The wish of this site.
    Lends(u16),
    /// Nothing.
    Nothing,
    /// The piece is kept.
    Kept,
    /// The piece's slot was filled or failed.
    Double,
    /// No slot has the piece's job.
    Stranger,
    /// It is so, or was done. Of a callback, its receipt has the callback.
    Yes,
    /// It isn't so, or wasn't done.
    No,
    /// So many.
    Count(u8),
    /// A full pipe with the writes of both phases.
    BothSteps,
    /// A full pipe that has failed and returns no writes.
    NoWrites,
    /// A full pipe with other writes.
    OtherWrites,
    /// The player lacks this move.
    NoMove,
}

/// A line of a script that returned something else.
#[derive(Clone, Copy, Debug, PartialEq, Eq)]
pub struct Wrong {
    /// The line; the first is 0.
    pub line: usize,
    /// Its move.
    pub did: Move,
    /// What the move returned.
    pub got: Got,
}

/// What plays scripts with a hold of type `H`.
pub trait Played<H> {
    /// Does a move.
    ///
    /// # Errors
    ///
    /// A failure of the test if there is no such job, or an allocation fails.
    fn does(&mut self, hold: H, alloc: Global, it: Move) -> Result<Got, Fail>;
}

/// A truth value as what a move returns.
pub fn was(it: bool) -> Got {
    if it { Got::Yes } else { Got::No }
}

/// What became of a piece.
pub fn came(it: Came) -> Got {
    match it {
        Came::Kept => Got::Kept,
        Came::Double => Got::Double,
        Came::Stranger => Got::Stranger,
    }
}

/// A hart's next action.
pub fn next_of(next: Next<PipeWork>) -> Got {
    match next {
        Next::Run(PipeWork::Begin(job)) => Got::Begins(job.place, job.phase),
        Next::Run(PipeWork::Ready(_)) => Got::GoesOn,
        Next::Lend(site) => Got::Lends(site),
        Next::Nothing => Got::Nothing,
    }
}

/// Comes for the next action.
pub fn entered<'p, S: Scheduler<Ctx = PipeWork<'p>>>(scheduler: &mut S, hold: S::Hold) -> Got {
    next_of(scheduler.enter(hold))
}

/// Compares the site, or calls a callback. Of a callback: whether its receipt has just that.
pub fn calls_back<S: Scheduler>(scheduler: &mut S, hold: S::Hold, it: Move) -> Got {
    let (told, call, child, count) = match it {
        Move::IsAt(site) => return was(scheduler.site() == site),
        Move::Register(child) => (
            scheduler.register(hold, child).told(),
            Call::Registered,
            child,
            0,
        ),
        Move::Request(child, count) => (
            scheduler.request(hold, child, count).told(),
            Call::Requested,
            child,
            count,
        ),
        Move::Yielded(child) => (
            scheduler.yielded(hold, child).told(),
            Call::Yielded,
            child,
            0,
        ),
        Move::Unregister(child) => (
            scheduler.unregister(hold, child).told(),
            Call::Unregistered,
            child,
            0,
        ),
        Move::Block => (scheduler.block(hold).told(), Call::Blocked, 0, 0),
        _ => return Got::NoMove,
    };
    was(told == Told { call, child, count })
}

/// The first line of a script that returns something else than it should.
///
/// # Errors
///
/// As `does`.
pub fn first_wrong<H: Copy, P: Played<H>>(
    played: &mut P,
    hold: H,
    alloc: Global,
    script: &[(Move, Got)],
) -> Result<Option<Wrong>, Fail> {
    for (line, (did, expected)) in script.iter().enumerate() {
        let got = played.does(hold, alloc, *did)?;
        if got != *expected {
            return Ok(Some(Wrong {
                line,
                did: *did,
                got,
            }));
        }
    }
    Ok(None)
}

//! Handed-out schedulers.
use forkjoin_sched::Pool;
use loop_team::Team;
use pipe_sched::Pipe;

/// A handed-out scheduler, whose work is done.
#[derive(Drop)]
pub enum Completed<'p> {
    /// A pool, every slot of which is filled or failed.
    Pool(Pool<'p>),
    /// A team that is done.
    Team(Team<'p>),
    /// A pipe, every piece of which is filled or failed.
    Pipe(Pipe<'p>),
}

impl<'p> Completed<'p> {
    /// Whether a piece of it failed.
    pub fn has_failed(&self) -> bool {
        match self {
            Completed::Pool(pool) => pool.has_failed(),
            Completed::Team(team) => team.has_failed(),
            Completed::Pipe(pipe) => pipe.has_failed(),
        }
    }
}

//! What the directory publishes for a site.
ghost use Rattle.std.specs.Prelude.{◌≡◌};
ghost use Rattle.shared_sites.specs.References.{site_at};

use forkjoin_sched::SharedPool;
use loop_team::SharedTeam;
use pipe_sched::SharedPipe;

/// The scheduler of a site, for all harts that come to it.
#[derive(Drop)]
pub enum SharedSite<'p> {
    /// The scheduler of a `par`, and the hart that published it. That hart's deque has the indices of the pieces.
    Pool { home: u8, pool: SharedPool<'p> },
    /// The scheduler of a `team` whose members wait for one another after each phase.
    Team(SharedTeam<'p>),
    /// The scheduler of a `team` whose members overtake.
    Pipe(SharedPipe<'p>),
    /// No scheduler: the home computes the construct by itself.
    Alone,
}

impl SharedSite<'_> {
    /// The site of the scheduler; the base for `Alone`.
    pub fn site(&self) -> u16
        ensures { result ≡ site_at self.now }
    {
        match self {
            SharedSite::Pool { home: _, pool } => pool.site(),
            SharedSite::Team(team) => team.nested().site,
            SharedSite::Pipe(pipe) => pipe.nested().site,
            SharedSite::Alone => 0,
        }
    }
}

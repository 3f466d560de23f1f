//! The scheduler of one site, as the single hart has it.
use base_sched::Base;
use forkjoin_sched::Pool;
use loop_team::Team;
use step_eval::Nested;

/// The scheduler of one site.
#[derive(Drop)]
pub enum LoneSite<'p> {
    /// The scheduler of the base.
    Base(Base),
    /// The scheduler of a `par`, with the construct.
    Pool { nested: Nested<'p>, pool: Pool<'p> },
    /// The scheduler of a `team`.
    Team(Team<'p>),
}

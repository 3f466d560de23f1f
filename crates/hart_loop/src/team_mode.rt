//! How the members of a `team` go on.

/// How the members of each `team` of a run go from phase to phase.
#[derive(Clone, Copy, Debug, PartialEq, Eq, Drop)]
pub enum TeamMode {
    /// The members wait for one another after each phase.
    Wait,
    /// The members overtake: each goes on as soon as the members below it have done its next phase.
    Overtake,
}

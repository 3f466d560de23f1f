//! Tests of schedulers together: the scheduler by turns, alone and as the parent of pools and teams, and the check of which
//! constructs may be pipelines. `pool_tests`, `team_tests` and `pipe_tests` test each scheduler by itself.
#![tactic(auto)]

#[cfg(test)]
mod alone;
#[cfg(test)]
mod constructs;
#[cfg(test)]
mod crossings;
#[cfg(test)]
mod family;
#[cfg(test)]
mod locks;
#[cfg(test)]
mod siblings;
#[cfg(test)]
mod steps;

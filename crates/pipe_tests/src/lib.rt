//! Tests of pipelines: the state of a pipeline, and its scheduler, by itself and through hands.
//!
//! Why a crate of its own: a crate is proved a second time with its tests.
#![tactic(auto)]

#[cfg(test)]
mod hands;
#[cfg(test)]
mod harts;
#[cfg(test)]
mod moves;
#[cfg(test)]
mod pipes;
#[cfg(test)]
mod samples;
#[cfg(test)]
mod states;
#[cfg(test)]
mod threads;

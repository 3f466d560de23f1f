//! Tests of the language's crates by public calls alone: texts, trees and runs; checks with values worked out by hand, with the
//! bounds, the recorded cells and the walk that they use, and the sites that programs enter; and spread programs. Beside them
//! functions that tests of other crates use.
//!
//! Why a crate of its own: a crate is proved a second time with its tests.
#![tactic(auto)]

#[cfg(test)]
mod bounding;
#[cfg(test)]
mod checking;
#[cfg(test)]
mod counts;
#[cfg(test)]
mod cutting;
#[cfg(test)]
mod entering;
#[cfg(test)]
mod evaluating;
#[cfg(test)]
mod layouts;
#[cfg(test)]
mod parsing;
#[cfg(test)]
mod paying;
#[cfg(test)]
mod printing;
pub mod programs;
#[cfg(test)]
mod stores;
#[cfg(test)]
mod tallies;
#[cfg(test)]
mod touching;
#[cfg(test)]
mod trees;
#[cfg(test)]
mod walking;

//! Tests of tasks: on one hart and on several, inside other tasks, of each library, and of their traces.
//!
//! Why a crate of its own: a crate is proved a second time with its tests. `pairs` and its gate are also compiled without tests,
//! since `specs/Pairs.antt` names their types.
#![tactic(auto)]

#[cfg(test)]
mod digits;
#[cfg(test)]
mod failing;
#[cfg(test)]
mod faults;
#[cfg(test)]
mod finds;
#[cfg(test)]
mod forks;
mod gates;
#[cfg(test)]
mod greatest;
#[cfg(test)]
mod lengths;
#[cfg(test)]
mod letters;
#[cfg(test)]
mod loops;
mod pairs;
#[cfg(test)]
mod rows;
#[cfg(test)]
mod runs;
#[cfg(test)]
mod searches;
#[cfg(test)]
mod sorts;
#[cfg(test)]
mod stops;
#[cfg(test)]
mod tables;
#[cfg(test)]
mod texts;
#[cfg(test)]
mod traced_trees;
#[cfg(test)]
mod trees;

//! Tests of the calls `lithe` and `serve_picture` that aren't data of `case_runs`: runs on up to 16 harts, outputs that are
//! audited again, and streams of the host. Begin with `examples.rt`.
#![tactic(auto)]

#[cfg(test)]
mod alone;
#[cfg(test)]
mod choices;
#[cfg(test)]
mod examples;
#[cfg(test)]
mod overtaking;
#[cfg(test)]
mod pictures;
#[cfg(test)]
mod prefixes;
#[cfg(test)]
mod serving;
#[cfg(test)]
mod statuses;
#[cfg(test)]
mod streams;
#[cfg(test)]
mod sums;
#[cfg(test)]
mod wide;

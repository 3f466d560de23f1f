//! Tests of the pool with the jobs of a small program, by itself and with hands, through public calls only.
#![tactic(auto)]

#[cfg(test)]
mod batches;
#[cfg(test)]
mod hands;
#[cfg(test)]
mod moves;
#[cfg(test)]
mod pools;
#[cfg(test)]
mod rows;
#[cfg(test)]
mod stores;

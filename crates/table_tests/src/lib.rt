//! Tests of the table, of ports and ledgers, of the steps of a hart at a site, of schedulers that know no construct, and of
//! contexts and mutexes, by public calls alone.
//!
//! Why a crate of its own: a crate is proved a second time with its tests.
#![tactic(auto)]

#[cfg(test)]
mod bases;
#[cfg(test)]
mod calls;
#[cfg(test)]
mod countdown;
#[cfg(test)]
mod lists;
#[cfg(test)]
mod moves;
#[cfg(test)]
mod mutexes;
#[cfg(test)]
mod ports;
#[cfg(test)]
mod steps;
#[cfg(test)]
mod tables;
#[cfg(test)]
mod turns;

//! Tests of the pictures, by public calls alone.
#![tactic(auto)]

#[cfg(test)]
mod faults;
#[cfg(test)]
mod kinds;
#[cfg(test)]
mod longest;
#[cfg(test)]
mod many;
#[cfg(test)]
mod pictures;
#[cfg(test)]
mod stays;
#[cfg(test)]
mod travels;
#[cfg(test)]
mod visits;

//! Tests of harts that share a table: call by call on a board of either layout and on a ledger under a lock, and in threads on a
//! board of either layout. Beside them, tests of the deques from which harts steal, and of the claims of members, on one thread
//! and by two harts on threads.
//!
//! Why a crate of its own: a crate is proved a second time with its tests.
#![tactic(auto)]

#[cfg(test)]
mod below;
#[cfg(test)]
mod calls;
#[cfg(test)]
mod claiming_threads;
#[cfg(test)]
mod claims;
#[cfg(test)]
mod deque_moves;
#[cfg(test)]
mod deques;
#[cfg(test)]
mod locked;
#[cfg(test)]
mod refusals;
#[cfg(test)]
mod roaming;
#[cfg(test)]
mod row;
#[cfg(test)]
mod seats;
#[cfg(test)]
mod shows;
#[cfg(test)]
mod skips;
#[cfg(test)]
mod stealing_threads;
#[cfg(test)]
mod taken;
#[cfg(test)]
mod threads;

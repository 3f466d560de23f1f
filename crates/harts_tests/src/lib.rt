//! Tests of several harts, through public calls only: the directory, by one hart and by harts on threads; sites that one hart
//! opens and another finds; harts that move by ports on one ledger under a lock; and complete runs, each hart on a thread.
#![tactic(auto)]

#[cfg(test)]
mod finders;
#[cfg(test)]
mod finding;
#[cfg(test)]
mod gates;
#[cfg(test)]
mod locked;
#[cfg(test)]
mod meeting;
#[cfg(test)]
mod no_deque;
#[cfg(test)]
mod phases;
#[cfg(test)]
mod pipes;
#[cfg(test)]
mod rounds;
#[cfg(test)]
mod runs;
#[cfg(test)]
mod sites;

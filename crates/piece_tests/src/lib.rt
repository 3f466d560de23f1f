//! Tests of jobs, of machines, of the writes of constructs, and of books and barriers over the jobs of small programs, by texts
//! and public calls alone.
#![tactic(auto)]

#[cfg(test)]
mod barriers;
#[cfg(test)]
mod bodies;
#[cfg(test)]
mod books;
#[cfg(test)]
mod by_bound;
#[cfg(test)]
mod constructs;
#[cfg(test)]
mod driving;
#[cfg(test)]
mod passes;
#[cfg(test)]
mod running;
#[cfg(test)]
mod threads;

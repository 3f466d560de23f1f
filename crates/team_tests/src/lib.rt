//! Tests of the team with the members of small programs, by itself and with hands, through public calls only.
#![tactic(auto)]

#[cfg(test)]
mod arrivals;
#[cfg(test)]
mod hands;
#[cfg(test)]
mod samples;
#[cfg(test)]
mod seats;
#[cfg(test)]
mod tables;
#[cfg(test)]
mod teams;
#[cfg(test)]
mod threads;

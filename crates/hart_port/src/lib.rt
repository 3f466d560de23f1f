//! Ports: one hart's right to make transfers.
//!
//! A hart makes its transfers by a port. The calls of a port are the six kinds of entry of the table, and reads of what other
//! harts did. The trait `Port` defines what each call needs and does, for every number of harts. `PlainPort` is the port of a
//! single hart that shares nothing, with its journal in a `Ledger`. `LockedPort` is the port of one of several harts that share
//! a table under a lock. `specs/PortView.antt` defines what contracts see of a port, `specs/Words.antt` the words that a port
//! shows. `table_tests` has examples.
#![tactic(auto)]

mod ledger;
mod locked;
mod plain;
mod port;
mod word;

pub use ledger::Ledger;
pub use locked::LockedPort;
pub use plain::PlainPort;
pub use port::{Entered, Port, Seen, Taken};
pub use word::{CLAIMED, CLOSED, CLOSING, WISH, is_claimed, is_closed, is_wanted, other_hart};

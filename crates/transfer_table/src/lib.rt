//! The table of transfers: which hart is in which site of a plan, and the entries that move it.
//!
//! A plan is a number of harts and a tree of sites. An entry registers a site, requests harts for it, lets a hart enter or
//! leave it, unregisters it, or skips it with all sites inside it. `Board` holds the state after the entries admitted so far.
//! `specs/Table.antt` defines what each entry needs and does. `table_tests` has examples.
//!
//! Each public module holds laws. No code there runs: each function's contract is a law, and its body is empty. `laws` are
//! about any legal list, `site_accounts` about a hart that runs a part of a program alone, `guest_counts` about the harts
//! inside a site.
#![tactic(auto)]

mod board;
mod entries;
mod entry;
mod fault;
pub mod guest_counts;
pub mod laws;
mod plan;
pub mod site_accounts;

pub use board::Board;
pub use entries::Entries;
pub use entry::{Entry, NotAdmitted, Row, Stage};
pub use fault::{Fault, Why, first_fault};
pub use plan::{MOST_ENTRIES, Plan, PlanFault, has_too_many_sites};

//! What a hart does at a site besides its work, over every port: it ends the site, and it registers and unregisters, or skips,
//! the sites that no hart entered.
//!
//! `PatientPort` is a port that can wait for other harts. A single hart's port never waits, and `WaitingPort` wraps any port so
//! that its waits may last. `SiteTree` is a plan with the children of each site in order. Begin with `finish_site` in
//! `ending.rt` and `sweep_children` in `sweeping.rt`; `table_tests` has examples.
#![tactic(auto)]

mod ending;
mod patience;
mod skipping;
mod sweeping;
mod tree;
mod waiting;

pub use ending::{finish_base, finish_site};
pub use patience::PatientPort;
pub use skipping::skip_sites;
pub use sweeping::{sweep_children, sweep_if};
pub use tree::SiteTree;
pub use waiting::WaitingPort;

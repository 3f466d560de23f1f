//! Runs of accepted programs.
//!
//! `run_alone` runs a program on one hart, and `run_harts` on the harts of its plan, each on a thread. `run_piped` does the
//! same with members that overtake. `HartSites` is the access of one of several harts to the schedulers, which are
//! lock-protected and in a directory. `work` is the part of one hart from start to end, and `run_ports` runs a crew of harts,
//! for any port that can wait.
//!
//! Begin with `run_harts` in `several.rt`, then `run_ports` in `crew.rt`; the tests of `harts_tests` run programs on threads.
#![tactic(auto)]

mod alone;
mod crew;
mod hart;
mod hart_site;
mod harts;
mod in_directory;
mod on_ports;
mod opened;
mod outcome;
mod several;
mod team_mode;
mod turns;

pub use alone::run_alone;
pub use hart::{Hart, work};
pub use hart_site::HartSite;
pub use harts::HartSites;
pub use in_directory::InDirectory;
pub use outcome::{Journal, Outcome};
pub use several::{run_harts, run_piped};
pub use team_mode::TeamMode;
pub use wide_board::WideClosed;
pub use word_board::Closed;

//! Sites of tasks on a crew of harts.
//!
//! A [`Crew`] is the state that all harts of a run share: an open board, on which harts are lent from site to site, and one
//! cell for each site. Each [`Hart`] has a seat at the board. A task sees its hart as [`CrewHarts`]: `fork_join` registers a
//! site below the site that the hart is in, puts the tasks into the site's cell, requests harts, runs tasks, and returns once
//! all tasks have ended. Other harts enter the site as guests and run its tasks.
//!
//! The table of tasks proves that each output belongs to its task, whichever hart ran it. The board proves that each transfer
//! of a hart is an entry of the board's table.
//!
//! Begin with `Levels` in `levels.rt` and `Site` in `site.rt`.
//!
//! # Example
//!
//! A task that runs tasks inside it at a site of their own, from `task_tests/src/trees.rt`. `task_crew` runs such a task.
//!
//! ```text
//! let leaves = harts.fork_join(alloc, branches_of(alloc, &self)?)?;
//! ```
#![tactic(auto)]

mod board;
mod collect;
mod countdown;
mod crew;
mod hart;
mod levels;
mod observer;
mod patience;
mod perches;
mod site;

pub use board::{CrewBoard, CrewSeat, Naming};
pub use countdown::Countdown;
pub use crew::Crew;
pub use hart::Hart;
pub use levels::{CrewHarts, Levels, NoLevel, OneMore, serve_base};
pub use observer::{Observer, Unobserved};
pub use site::Site;

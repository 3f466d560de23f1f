//! Measures the time of a transfer for harts that share a board, by owners (the word board) and by guests (the wide board).
//!
//! Each hart registers, closes, checks and unregisters sites of its own, which lie under the base. The program prints to
//! standard error, in nanoseconds, the time of the slowest hart divided by the number of all Register and Unregister: the best
//! and the median of 150 new boards. It does so for 1, 2 and 4 harts.
//!
//! The program shows what harts cost each other that write one word of a board. Begin with `rounds` in `rounds.rt`, which
//! measures one layout for a number of harts. `visit_all` in `visits.rt` makes the transfers of one hart.
//!
//! # Example
//!
//! The commands and a table of what they printed are in `docs/PERFORMANCE.md`, in the section "A transfer".
//!
//! ```text
//! (cd crates/transfer_speeds && rt run)
//! chrt -r 1 crates/transfer_speeds/out/transfer_speeds
//! ```
#![tactic(auto)]

mod rounds;
mod visits;

use crate::rounds::rounds;
use lent_board::{ByGuests, ByOwners};
use std::io;
use std::io::Write;

fn main(rt: HostRuntime) -> io::Result<()> {
    for harts in [1, 2, 4] {
        let times = rounds::<ByOwners, _>(&rt, rt.alloc(), harts)?;
        eprintln!(rt;
            "by owners, {harts} harts: best {} ns, median {} ns",
            times.best, times.median
        )?;
        let times = rounds::<ByGuests, _>(&rt, rt.alloc(), harts)?;
        eprintln!(rt;
            "by guests, {harts} harts: best {} ns, median {} ns",
            times.best, times.median
        )?;
    }
    Ok(())
}

//! What both pictures draw.
ghost use Rattle.std.specs.Prelude.{◌≡◌, ◌≤◌, length};
ghost use Rattle.transfer_table.specs.Plan.{most_entries, site_count};

use crate::drawn::board_after;
use crate::shape::Shape;
use crate::travels::{Travels, travels_of};
use crate::visits::{Visits, visits_of};
use std::alloc::{AllocError, Global};
use transfer_table::{Board, Entry, Plan};

/// What a picture draws: the entries of a list, the table after them, and the numbers of its sites and harts. Contracts see it
/// as a `View`.
#[derive(Drop)]
pub(crate) struct Drawing<'x> {
    pub alloc: Global,
    /// The shapes of the sites.
    pub shapes: &'x [Shape],
    pub list: &'x [Entry],
    /// The table after the entries.
    pub board: Board,
    pub visits: Vec<Visits>,
    pub travels: Vec<Travels>,
    pub ghost few: { length list.now ≤ most_entries },
    pub ghost sites: { length visits.items ≡ site_count board.plan },
    pub ghost harts: { length travels.items ≡ board.plan.harts },
}

impl<'x> Drawing<'x> {
    ghost use Rattle.std.specs.Prelude.{IfOk};
    ghost use Rattle.journal_picture.specs.Views.{view, view_of};

    /// The drawing of these entries.
    pub(crate) fn new(
        alloc: Global,
        plan: &Plan,
        shapes: &'x [Shape],
        list: &'x [Entry],
    ) -> Result<Drawing<'x>, AllocError>
        requires { length list.now ≤ most_entries }
        ensures { IfOk result
            (λ drawing. view_of drawing ≡ view plan.now shapes.now list.now) }
    {
        let board = board_after(alloc, plan, list)?;
        let visits = visits_of(alloc, plan, list)?;
        let travels = travels_of(alloc, plan, list)?;
        Ok(Drawing {
            alloc,
            shapes,
            list,
            board,
            visits,
            travels,
        })
    }

    /// The plan.
    pub(crate) fn plan(&self) -> &Plan
        ensures { result.now ≡ self.now.board.plan }
    {
        self.board.plan()
    }
}

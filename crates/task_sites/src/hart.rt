//! One hart of a crew: its transfers, and what it checks while it has no task.
ghost use Rattle.std.specs.Prelude.{◌≡◌, ◌≤◌, ◌⊎◌, IfOk, IfErr, alloc_error};

use crate::board::{CrewSeat, Naming};
use crate::countdown::Countdown;
use crate::crew::Crew;
use crate::observer::Observer;
use crate::site::Site;
use crossbeam_utils::Backoff;
use open_board::{Entered, Finish, OpenSeat, Refused};
use std::alloc::Global;
use std::cell::{Cell, RefCell};
use std::sync::{Arc, Wait};
use tasks::{Harts, Task, TaskKind};

/// One hart of a crew. Why cells: the tasks inside a task reach their hart by a shared reference.
#[derive(Drop)]
pub struct Hart<'c, T: TaskKind, R, B: Naming> {
    pub(crate) rt: &'c R,
    crew: &'c Crew<T, B>,
    number: u8,
    seat: RefCell<CrewSeat<B>>,
    // The sites of this hart that may want harts, as the crew shows them.
    wishes: Cell<u64>,
    // The number of harts that the current task may count on.
    share: Cell<u8>,
}

impl<'c, T: TaskKind, R, B: Naming> Hart<'c, T, R, B> {
    /// Seats a hart of a crew.
    pub fn new(rt: &'c R, crew: &'c Crew<T, B>, seat: OpenSeat) -> Hart<'c, T, R, B>
        requires board { seat.seat.table_id ≡ B.table }
        requires size { seat.seat.me.0.size ≡ B.size }
    {
        let number = seat.hart();
        Hart {
            rt,
            crew,
            number,
            seat: RefCell::new(CrewSeat::new(seat)),
            wishes: Cell::new(0),
            share: Cell::new(crew.size.harts),
        }
    }

    /// Returns the seat.
    pub fn into_seat(self) -> OpenSeat
        ensures board { result.seat.table_id ≡ B.table }
        ensures size { result.seat.me.0.size ≡ B.size }
    {
        let Hart {
            rt: _,
            crew: _,
            number: _,
            seat,
            wishes: _,
            share: _,
        } = self;
        seat.into_inner().into_seat()
    }

    /// The number of harts in the crew.
    pub(crate) fn crew_size(&self) -> u8 {
        self.crew.size.harts
    }

    /// Whether the run has still to end: 1 or 0.
    pub(crate) fn run(&self) -> &Countdown {
        self.crew.run()
    }

    /// The number of harts that the current task may count on.
    pub(crate) fn share(&self) -> u8 {
        self.share.get()
    }

    /// Sets the number of harts that the current task may count on. Returns the number before.
    pub(crate) fn set_share(&self, share: u8) -> u8 {
        self.share.replace(share)
    }

    // The site that the hart is in; 0 is the base.
    fn owner(&self) -> u16 {
        match self.seat.try_borrow() {
            Ok(seat) => seat.owner(),
            Err(_) => 0,
        }
    }

    // Shows whether the site of which this hart is the home may want harts.
    fn show_wish(&self, site: u16, wants: bool) {
        let levels = self.crew.size.levels.max(1) as u16;
        let bit = 1u64.wrapping_shl(site.wrapping_sub(1).wrapping_rem(levels) as u32);
        let before = self.wishes.get();
        let wishes = if wants { before | bit } else { before & !bit };
        self.wishes.set(wishes);
        self.crew.show_wishes(self.number, wishes);
    }
}

impl<'c, T: TaskKind, R: Wait, B: Naming> Hart<'c, T, R, B> {
    /// Registers a site for the tasks below the hart's owner and requests so many harts. Returns the site's number, or `None`
    /// if the hart is the home of as many sites as the board has levels: nothing is changed then. A hart that rests at the owner
    /// wakes, unless another hart searches there.
    pub(crate) fn open(&self, tasks: &Arc<Site<T>, Global>, wish: u8) -> Option<u16> {
        let parent = self.owner();
        let site = self.register_wishing(wish)?;
        if self.crew.lay(self.rt, site, tasks) {
            self.show_wish(site, true);
            if self.crew.perches.is_quiet(parent) {
                self.crew.perches.wake_searcher(self.rt, parent);
            }
        }
        Some(site)
    }

    // Registers a site below the hart's owner, and requests so many harts there.
    fn register_wishing(&self, wish: u8) -> Option<u16> {
        match self.seat.try_borrow_mut() {
            Ok(mut seat) => self.crew.board.register_wishing(&mut seat, wish).ok(),
            Err(_) => None,
        }
    }

    // Ends the site of which the hart is the home if no guest is inside. Returns whether it has.
    fn has_ended_empty(&self) -> bool {
        match self.seat.try_borrow_mut() {
            Ok(mut seat) => self.crew.board.end_if_empty(&mut seat) == Ok(Finish::Gone),
            Err(_) => false,
        }
    }

    // Closes the site of which the hart is the home.
    fn close(&self) {
        if let Ok(mut seat) = self.seat.try_borrow_mut() {
            let _closed = self.crew.board.close(&mut seat);
        }
    }

    // Tries to enter the site. Returns whether the hart is inside.
    fn has_entered(&self, site: u16) -> bool {
        match self.seat.try_borrow_mut() {
            Ok(mut seat) => {
                let entered = self.crew.board.try_enter(&mut seat, site);
                entered == Ok(Entered::Inside)
            }
            Err(_) => false,
        }
    }

    /// Ends the site of which the hart is the home, once its guests have left. No further hart enters it.
    pub(crate) fn shut(&self, site: u16) {
        self.show_wish(site, false);
        let has_ended = self.has_ended_empty();
        self.crew.clear(self.rt, site);
        if !has_ended {
            self.close();
            self.crew.perches.wake(site, self.crew.size.harts as usize);
            self.wait_until_empty(site);
        }
    }

    // Ends the closed site of which the hart is the home, once its guests have left.
    fn wait_until_empty(&self, site: u16) {
        let backoff = Backoff::new();
        'looks: for _ in self.rt.forever() {
            if self.has_unregistered() {
                return;
            }
            if !backoff.is_completed() {
                backoff.snooze();
            } else if self.rest_at_end(site) {
                return;
            }
        }
        unreachable!()
    }

    // Ends the site of which the hart is the home, unless a guest is inside. Returns whether no guest is inside.
    fn has_unregistered(&self) -> bool {
        match self.seat.try_borrow_mut() {
            Ok(mut seat) => {
                let ended = self.crew.board.unregister(&mut seat);
                !matches!(ended, Err(Refused::NotEmpty { .. }))
            }
            Err(_) => true,
        }
    }

    // Sleeps until a guest has left the site of which the hart is the home. Returns whether it has ended the site.
    fn rest_at_end(&self, site: u16) -> bool {
        let perches = &self.crew.perches;
        let hart = self.number;
        perches.announce(hart, site);
        let has_ended = self.has_unregistered();
        if !has_ended {
            perches.sleep(self.rt, hart);
        }
        if perches.retract(hart) {
            // (no task inside the site is left, so there is no wish to look for)
            let _last = perches.end_search(site);
        }
        has_ended
    }

    /// Enters a site below the hart's owner that wants harts. Returns its tasks, or `None` if the hart found no such site: its
    /// owner is then unchanged.
    pub(crate) fn enter_wish(&self) -> Option<Arc<Site<T>, Global>> {
        let harts = self.crew.size.harts;
        for step in 1..harts {
            let home = ((self.number as u16 + step as u16) % harts as u16) as u8;
            let wishes = self.crew.wishes_of(home);
            if wishes != 0 {
                if let Some(tasks) = self.enter_of(home, wishes) {
                    return Some(tasks);
                }
            }
        }
        None
    }

    // Enters one of the sites of a home below the hart's owner.
    fn enter_of(&self, home: u8, wishes: u64) -> Option<Arc<Site<T>, Global>> {
        let levels = self.crew.size.levels;
        for level in 0..levels {
            if wishes.wrapping_shr(level as u32) % 2 == 1 {
                let site = 1 + home as u16 * levels as u16 + level as u16;
                if self.has_entered(site) {
                    return self.tasks_inside(site);
                }
            }
        }
        None
    }

    // The tasks of the site that the hart has entered. Without tasks the hart leaves it.
    fn tasks_inside(&self, site: u16) -> Option<Arc<Site<T>, Global>> {
        let laid = self.crew.laid(self.rt, site);
        if laid.is_none() {
            self.leave();
        }
        laid
    }

    /// Leaves the site of which the hart is a guest.
    pub(crate) fn leave(&self) {
        let site = self.owner();
        if let Ok(mut seat) = self.seat.try_borrow_mut() {
            let _left = self.crew.board.yield_hart(&mut seat);
        }
        self.wake_home(site);
    }

    /// Wakes the home of the hart's owner, if it rests there.
    pub(crate) fn wake_owner(&self) {
        self.wake_home(self.owner());
    }

    // Wakes the home of the site, if it rests there.
    fn wake_home(&self, site: u16) {
        let levels = self.crew.size.levels.max(1) as u16;
        let home = site.wrapping_sub(1).wrapping_div(levels);
        self.crew
            .perches
            .wake_hart(self.rt, (home % 256) as u8, site);
    }

    /// Begins to search for sites to enter, below the hart's owner, and returns the owner.
    pub(crate) fn begin_search(&self) -> u16 {
        let owner = self.owner();
        self.crew.perches.begin_search(owner);
        owner
    }

    /// Ends the search below the owner. If no other hart searches there and there is a wish, one that rests there wakes.
    pub(crate) fn end_search(&self, owner: u16) {
        let perches = &self.crew.perches;
        if perches.end_search(owner) && perches.any_rests() && self.is_wished() {
            perches.wake_searcher(self.rt, owner);
        }
    }

    // Whether a hart shows a wish.
    fn is_wished(&self) -> bool {
        for home in 0..self.crew.size.harts {
            if self.crew.wishes_of(home) != 0 {
                return true;
            }
        }
        false
    }

    /// Sleeps at the hart's owner, below which it searches, until there is a wish or the count is down. Returns the tasks of a
    /// site that the hart has entered instead, if there was a wish. The hart searches again afterwards.
    pub(crate) fn rest(&self, left: &Countdown, owner: u16) -> Option<Arc<Site<T>, Global>> {
        let perches = &self.crew.perches;
        perches.announce(self.number, owner);
        let _last = perches.end_search(owner);
        if left.is_down() {
            self.search_again(owner);
            return None;
        }
        let entered = self.enter_wish();
        if entered.is_none() {
            perches.sleep(self.rt, self.number);
        }
        self.search_again(owner);
        entered
    }

    // Takes back that the hart rests. If another hart has chosen to wake it, that one has counted it among those that search.
    fn search_again(&self, owner: u16) {
        if !self.crew.perches.retract(self.number) {
            self.crew.perches.begin_search(owner);
        }
    }
}

impl<'c, T: TaskKind, R: Observer, B: Naming> Hart<'c, T, R, B> {
    /// Runs a task on the hart. The task sees the harts as `harts`. The observer of the run gets its begin and its end.
    ///
    /// # Errors
    ///
    /// An error of the task's own, or an allocation failure.
    pub(crate) fn run_observed<H: Harts<T>>(
        &self,
        alloc: Global,
        harts: &mut H,
        task: T,
    ) -> Result<T::Output, T::Error>
    where
        T: Task,
        requires depth { T.depth task ≤ H.levels harts.old }
        requires ready { T.ready task }
        ensures output { IfOk result (λ output. T.gives task output) }
        ensures error { IfErr result
            (λ error. T.fails task error ⊎ T.Error.from_gives alloc_error error) }
        ensures levels { H.levels harts.new ≡ H.levels harts.old }
    {
        self.show_begin();
        let outcome = task.run(alloc, harts);
        self.show_end();
        outcome
    }

    // Reports to the observer that a task begins on the hart.
    fn show_begin(&self) {
        if self.rt.is_on() {
            self.rt.task_begins(self.number, self.owner());
        }
    }

    // Reports to the observer that the task that began last on the hart ends.
    fn show_end(&self) {
        if self.rt.is_on() {
            self.rt.task_ends(self.number);
        }
    }
}

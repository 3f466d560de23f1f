//! The observer of a run: it gets a call when a task begins and when a task ends.
ghost use Rattle.std.specs.Prelude.{◌≡◌};

use open_board::NotEnded;
use std::sync::Wait;
use std::thread::Threads;

/// A handle that gets a call when a task of a run begins and when it ends. Why a handle: each hart holds the run's handle, so
/// an unobserved run does no extra work.
pub trait Observer: Wait {
    /// Whether tasks are observed. If not, the harts don't call the other methods.
    fn is_on(&self) -> bool;

    /// A task begins on the hart, which is in this site; site 0 is the base.
    fn task_begins(&self, hart: u8, site: u16);

    /// The task ends that began last of those that run on the hart.
    fn task_ends(&self, hart: u8);

    /// All tasks have ended, but the board refused to end for this reason, as if a hart were still in a site. The run returns its
    /// outcome.
    fn harts_stay(&self, why: NotEnded);
}

/// A handle that observes nothing, over another handle.
#[derive(Drop)]
pub struct Unobserved<'r, R> {
    rt: &'r R,
}

impl<'r, R> Unobserved<'r, R> {
    /// Makes a handle with the abilities of `rt`, which observes nothing.
    pub fn new(rt: &'r R) -> Unobserved<'r, R>
        ensures { result.rt.now ≡ rt.now }
    {
        Unobserved { rt }
    }
}

impl<R: Wait> Wait for Unobserved<'_, R> {}

impl<R: Threads> Threads for Unobserved<'_, R> {}

impl<R: Wait> Observer for Unobserved<'_, R> {
    fn is_on(&self) -> bool {
        false
    }

    fn task_begins(&self, _hart: u8, _site: u16) {}

    fn task_ends(&self, _hart: u8) {}

    fn harts_stay(&self, _why: NotEnded) {}
}

//! The harts that a task of a crew runs on.
ghost use Rattle.std.specs.Prelude.{◌≡◌, ◌<◌, ◌≤◌, ◌+◌, ◌⊎◌, ℕ, [], min, length, All, IsOk, IfOk, IfErr, alloc_error};
ghost use Rattle.std.specs.Arc.{arc_value};
ghost use Rattle.std.specs.List.{AllZip};
ghost use Rattle.tasks.specs.Failures.{FirstFailure};

use crate::board::Naming;
use crate::countdown::Countdown;
use crate::hart::Hart;
use crate::observer::Observer;
use crate::patience::Patience;
use crate::site::Site;
use std::alloc::{AllocError, Global};
use std::marker::PhantomData;
use std::sync::Arc;
use task_table::Outcome;
use tasks::{Ground, Harts, Task};

/// The number of levels of tasks that may be inside a task. Why a type: a task runs tasks of its own kind inside it, and the
/// proof goes down the levels.
pub trait Levels<T: Task, R: Observer, B: Naming> {
    /// The number of levels.
    ghost count: { ℕ };

    /// The number of levels, at most 255.
    fn number() -> u8
        ensures { result ≡ count };

    /// Runs a task on the hart, in which there may be so many levels.
    ///
    /// # Errors
    ///
    /// An error of the task's own, or an allocation failure.
    fn run_task(
        alloc: Global,
        hart: &Hart<'_, T, R, B>,
        levels: u8,
        task: T,
    ) -> Result<T::Output, T::Error>
        requires depth { T.depth task ≤ levels }
        requires ready { T.ready task }
        requires levels { levels ≤ count }
        ensures output { IfOk result (λ output. T.gives task output) }
        ensures error { IfErr result
            (λ error. T.fails task error ⊎ T.Error.from_gives alloc_error error) };

    /// Runs tasks of a site that no other hart has claimed, until there are none.
    fn work(alloc: Global, hart: &Hart<'_, T, R, B>, site: &Site<T>)
        requires { site.now.1 ≤ count };

    /// Runs tasks of a site of which the hart is a guest, and helps the sites inside it until all its tasks have ended.
    fn serve(alloc: Global, hart: &Hart<'_, T, R, B>, site: &Site<T>)
        requires { site.now.1 ≤ count };
}

/// No task may be inside the task.
pub struct NoLevel;

/// One level of tasks more than `L`.
pub struct OneMore<L> {
    inner: PhantomData<L>,
}

/// The harts of a crew, as a task sees them inside which there may be one level of tasks more than `L`.
#[derive(Drop)]
pub struct CrewHarts<'x, 'c, T: Task, R, B: Naming, L> {
    hart: &'x Hart<'c, T, R, B>,
    inner: PhantomData<L>,
}

impl<T: Task, R: Observer, B: Naming> Levels<T, R, B> for NoLevel {
    ghost count = { 0 };

    fn number() -> u8
        ensures { result ≡ 0 }
    {
        0
    }

    fn run_task(
        alloc: Global,
        hart: &Hart<'_, T, R, B>,
        _levels: u8,
        task: T,
    ) -> Result<T::Output, T::Error>
        requires depth { T.depth task ≤ _levels }
        requires ready { T.ready task }
        requires levels { _levels ≤ 0 }
        ensures output { IfOk result (λ output. T.gives task output) }
        ensures error { IfErr result
            (λ error. T.fails task error ⊎ T.Error.from_gives alloc_error error) }
    {
        hart.run_observed(alloc, &mut Ground, task)
    }

    fn work(alloc: Global, hart: &Hart<'_, T, R, B>, site: &Site<T>)
        requires { site.now.1 ≤ 0 }
    {
        site.run_tasks(alloc, hart, &mut Ground);
    }

    fn serve(alloc: Global, hart: &Hart<'_, T, R, B>, site: &Site<T>)
        requires { site.now.1 ≤ 0 }
    {
        site.run_tasks(alloc, hart, &mut Ground);
        if site.left().is_down() {
            hart.wake_owner();
        }
    }
}

impl<T: Task, R: Observer, B: Naming, L: Levels<T, R, B>> Levels<T, R, B> for OneMore<L> {
    ghost count = { min 255 (L.count + 1) };

    fn number() -> u8
        ensures { result ≡ min 255 (L.count + 1) }
    {
        let inner = L::number();
        if inner < 255 { inner + 1 } else { 255 }
    }

    fn run_task(
        alloc: Global,
        hart: &Hart<'_, T, R, B>,
        levels: u8,
        task: T,
    ) -> Result<T::Output, T::Error>
        requires depth { T.depth task ≤ levels }
        requires ready { T.ready task }
        requires levels { levels ≤ min 255 (L.count + 1) }
        ensures output { IfOk result (λ output. T.gives task output) }
        ensures error { IfErr result
            (λ error. T.fails task error ⊎ T.Error.from_gives alloc_error error) }
    {
        if levels <= L::number() {
            return L::run_task(alloc, hart, levels, task);
        }
        let mut harts: CrewHarts<'_, '_, T, R, B, L> = CrewHarts {
            hart,
            inner: PhantomData,
        };
        hart.run_observed(alloc, &mut harts, task)
    }

    fn work(alloc: Global, hart: &Hart<'_, T, R, B>, site: &Site<T>)
        requires { site.now.1 ≤ min 255 (L.count + 1) }
    {
        let before = hart.set_share(site.share());
        run_inside::<T, R, B, L>(alloc, hart, site);
        let _share = hart.set_share(before);
    }

    fn serve(alloc: Global, hart: &Hart<'_, T, R, B>, site: &Site<T>)
        requires { site.now.1 ≤ min 255 (L.count + 1) }
    {
        if site.levels() <= L::number() {
            L::serve(alloc, hart, site);
            return;
        }
        Self::work(alloc, hart, site);
        wait_for_end::<T, R, B, L>(alloc, hart, site.left());
        hart.wake_owner();
    }
}

// Runs tasks of a site with one level more than `L`.
fn run_inside<T: Task, R: Observer, B: Naming, L: Levels<T, R, B>>(
    alloc: Global,
    hart: &Hart<'_, T, R, B>,
    site: &Site<T>,
)
    requires { site.now.1 ≤ min 255 (L.count + 1) }
{
    let mut harts: CrewHarts<'_, '_, T, R, B, L> = CrewHarts {
        hart,
        inner: PhantomData,
    };
    site.run_tasks(alloc, hart, &mut harts);
}

impl<'x, 'c: 'x, T: Task, R: Observer, B: Naming, L: Levels<T, R, B>> Harts<T>
    for CrewHarts<'x, 'c, T, R, B, L> {
    ghost levels = { λ _. min 255 (L.count + 1) };

    fn fork_join(&mut self, alloc: Global, tasks: Vec<T>) -> Result<Vec<T::Output>, T::Error>
        requires depth { All (λ task. T.depth task < min 255 (L.count + 1)) tasks.items }
        requires ready { All T.ready tasks.items }
        ensures outputs { IfOk result (λ outputs. AllZip T.gives tasks.items outputs.items) }
        ensures error { IfErr result (λ error. FirstFailure T.gives T.fails tasks.items error
            ⊎ T.Error.from_gives alloc_error error) }
        ensures no_tasks { tasks.items ≡ [] → IsOk result }
        ensures levels { min 255 (L.count + 1) ≡ min 255 (L.count + 1) }
    {
        fork_join_on::<T, R, B, L>(alloc, self.hart, tasks)
    }
}

// Runs tasks at a site of their own, and returns their outputs in order once all have ended. One hart alone runs them in order.
#[tactic(auto, using(crate::proofs::Places::plain_failure))]
fn fork_join_on<T: Task, R: Observer, B: Naming, L: Levels<T, R, B>>(
    alloc: Global,
    hart: &Hart<'_, T, R, B>,
    tasks: Vec<T>,
) -> Result<Vec<T::Output>, T::Error>
    requires depth { All (λ task. T.depth task ≤ L.count) tasks.items }
    requires ready { All T.ready tasks.items }
    ensures outputs { IfOk result (λ outputs. AllZip T.gives tasks.items outputs.items) }
    ensures error { IfErr result (λ error. FirstFailure T.gives T.fails tasks.items error
        ⊎ T.Error.from_gives alloc_error error) }
    ensures no_tasks { tasks.items ≡ [] → IsOk result }
{
    if hart.crew_size() < 2 {
        return in_order_on::<T, R, B, L>(alloc, hart, tasks);
    }
    let count = tasks.len();
    let outputs = Vec::with_capacity(alloc, count)?;
    if count == 0 {
        return Ok(outputs);
    }
    let share = share_of(hart.share(), count);
    let wish = wish_of(hart.crew_size(), hart.share(), count, L::number());
    let site = shared_site(alloc, tasks, L::number(), share)?;
    let rt = hart.rt;
    lead::<T, R, B, L>(alloc, hart, &site, wish);
    match site.outcomes(rt, outputs) {
        Ok(all) => Ok(all),
        Err(error) => Err(error),
    }
}

// Runs tasks on this hart alone, in order, up to the first that fails.
fn in_order_on<T: Task, R: Observer, B: Naming, L: Levels<T, R, B>>(
    alloc: Global,
    hart: &Hart<'_, T, R, B>,
    tasks: Vec<T>,
) -> Result<Vec<T::Output>, T::Error>
    requires depth { All (λ task. T.depth task ≤ L.count) tasks.items }
    requires ready { All T.ready tasks.items }
    ensures outputs { IfOk result (λ outputs. AllZip T.gives tasks.items outputs.items) }
    ensures error { IfErr result (λ error. FirstFailure T.gives T.fails tasks.items error
        ⊎ T.Error.from_gives alloc_error error) }
    ensures no_tasks { tasks.items ≡ [] → IsOk result }
{
    let mut outputs = Vec::with_capacity(alloc, tasks.len())?;
    let mut rest = tasks.into_iter();
    'tasks: while let Some(task) = rest.next() {
        outputs.push_reserved(L::run_task(alloc, hart, L::number(), task)?);
    }
    Ok(outputs)
}

// Makes a site of tasks that harts share.
fn shared_site<T: Task>(
    alloc: Global,
    tasks: Vec<T>,
    levels: u8,
    share: u8,
) -> Result<Arc<Site<T>, Global>, AllocError>
    requires some { 0 < length tasks.items }
    requires shallow { All (λ task. T.depth task ≤ levels) tasks.items }
    requires ready { All T.ready tasks.items }
    ensures { IfOk result (λ site. arc_value site ≡ (tasks.items, levels, share)) }
{
    let site = Site::new(alloc, tasks, levels, share)?;
    Ok(Arc::new(alloc, site)?)
}

// Runs the tasks of a site of which the hart is the home, with the guests that come, until all have ended and no guest is
// inside.
fn lead<T: Task, R: Observer, B: Naming, L: Levels<T, R, B>>(
    alloc: Global,
    hart: &Hart<'_, T, R, B>,
    site: &Arc<Site<T>, Global>,
    wish: u8,
)
    requires { (arc_value site.now).1 ≤ L.count }
{
    let opened = if wish == 0 {
        None
    } else {
        hart.open(site, wish)
    };
    L::work(alloc, hart, site);
    if let Some(number) = opened {
        wait_for_end::<T, R, B, L>(alloc, hart, site.left());
        hart.shut(number);
    }
}

// The number of harts that each of so many tasks may count on, of those that their parent may.
fn share_of(share: u8, count: usize) -> u8 {
    ((share as usize) / count.max(1)).max(1) as u8
}

// The number of harts that a site of so many tasks requests. Without a level inside the tasks, more harts than tasks would find
// nothing to do.
fn wish_of(harts: u8, share: u8, count: usize, levels: u8) -> u8 {
    let others = harts.saturating_sub(1);
    let tasks = count.saturating_sub(1).min(others as usize) as u8;
    if levels == 0 || count < 2 {
        return tasks;
    }
    tasks.max(share.saturating_sub(1)).min(others)
}

// Helps the sites inside the hart's owner until the count is down. It sleeps while there is nothing to do.
fn wait_for_end<T: Task, R: Observer, B: Naming, L: Levels<T, R, B>>(
    alloc: Global,
    hart: &Hart<'_, T, R, B>,
    left: &Countdown,
) {
    if left.is_down() {
        return;
    }
    let owner = hart.begin_search();
    let mut patience = Patience::new();
    'looks: for _ in hart.rt.forever() {
        if left.is_down() {
            hart.end_search(owner);
            return;
        }
        let entered = if patience.is_over() {
            patience.reset();
            hart.rest(left, owner)
        } else {
            hart.enter_wish()
        };
        match entered {
            Some(site) => {
                hart.end_search(owner);
                visit::<T, R, B, L>(alloc, hart, &site);
                let _owner = hart.begin_search();
                patience.reset();
            }
            None => patience.pause(),
        }
    }
    unreachable!()
}

// Serves a site that the hart has entered, and leaves it.
fn visit<T: Task, R: Observer, B: Naming, L: Levels<T, R, B>>(
    alloc: Global,
    hart: &Hart<'_, T, R, B>,
    site: &Site<T>,
) {
    if site.levels() <= L::number() {
        L::serve(alloc, hart, site);
    }
    hart.leave();
}

/// Lends the hart to the sites of a run, from the base, until the run has ended.
pub fn serve_base<T: Task, R: Observer, B: Naming, L: Levels<T, R, B>>(
    alloc: Global,
    hart: &Hart<'_, T, R, B>,
) {
    wait_for_end::<T, R, B, L>(alloc, hart, hart.run());
}

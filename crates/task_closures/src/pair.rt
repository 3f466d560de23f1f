//! Two closures at once.
ghost use Rattle.std.specs.Prelude.{◌≡◌, ◌≤◌, ◌<◌, ◌⊎◌, IfOk, IfErr, Err, Some, MatchOption, alloc_error};
ghost use Rattle.task_crew.specs.Runs.{RunFails};

use crate::work::{Once, Work};
use std::alloc::{AllocError, Global};
use std::sync::Wait;
use std::thread::Threads;
use task_crew::{RunError, run_on_eight_levels};
use tasks::{Harts, Task, TaskKind};

/// Two pieces of work, or one of them.
#[derive(Drop)]
pub struct Pair<V, W> {
    first: Option<V>,
    second: Option<W>,
    // The number of levels of tasks inside: 1 if the two are to be done as two tasks.
    inside: u8,
}

impl<V: Work, W: Work> TaskKind for Pair<V, W> {
    type Output = (Option<V::Output>, Option<W::Output>);

    type Error = AllocError;

    ghost gives = { λ pair outputs.
        MatchOption pair.first (Unit {0}) (λ work. (output : V.Output) × (outputs.0 ≡ Some output) × V.gives work output)
        × MatchOption pair.second (Unit {0}) (λ work. (output : W.Output) × (outputs.1 ≡ Some output) × W.gives work output) };

    ghost fails = { λ _ _. ⊥ };

    ghost depth = { λ pair. pair.inside };

    ghost ready = { λ pair. MatchOption pair.first (Unit {0}) V.can
        × MatchOption pair.second (Unit {0}) W.can };
}

impl<V: Work, W: Work> Task for Pair<V, W> {
    fn run<H: Harts<Self>>(
        self,
        alloc: Global,
        harts: &mut H,
    ) -> Result<(Option<V::Output>, Option<W::Output>), AllocError> {
        let Pair {
            first,
            second,
            inside,
        } = self;
        if inside == 0 {
            return Ok((done(first), done(second)));
        }
        halves(alloc, harts, first, second)
    }
}

// Does both as two tasks.
fn halves<V: Work, W: Work, H: Harts<Pair<V, W>>>(
    alloc: Global,
    harts: &mut H,
    first: Option<V>,
    second: Option<W>,
) -> Result<(Option<V::Output>, Option<W::Output>), AllocError>
    requires levels { 1 ≤ H.levels harts.old }
    requires first { MatchOption first (Unit {0}) V.can }
    requires second { MatchOption second (Unit {0}) W.can }
    ensures first { IfOk result (λ outputs. MatchOption first (Unit {0})
        (λ work. (output : V.Output) × (outputs.0 ≡ Some output) × V.gives work output)) }
    ensures second { IfOk result (λ outputs. MatchOption second (Unit {0})
        (λ work. (output : W.Output) × (outputs.1 ≡ Some output) × W.gives work output)) }
    ensures error { IfErr result (λ error. error ≡ alloc_error) }
    ensures levels { H.levels harts.new ≡ H.levels harts.old }
{
    let front = Pair {
        first,
        second: None,
        inside: 0,
    };
    let back = Pair {
        first: None,
        second,
        inside: 0,
    };
    let (front, back) = both(alloc, harts, front, back)?;
    Ok((front.0, back.1))
}

// Runs two tasks, and returns both outputs.
fn both<T: TaskKind, H: Harts<T>>(
    alloc: Global,
    harts: &mut H,
    first: T,
    second: T,
) -> Result<(T::Output, T::Output), T::Error>
    requires first { T.depth first < H.levels harts.old }
    requires second { T.depth second < H.levels harts.old }
    requires first_ready { T.ready first }
    requires second_ready { T.ready second }
    ensures outputs { IfOk result
        (λ outputs. T.gives first outputs.0 × T.gives second outputs.1) }
    ensures error { IfErr result (λ error. T.fails first error
        ⊎ ((output : T.Output) × T.gives first output × T.fails second error)
        ⊎ T.Error.from_gives alloc_error error) }
    ensures levels { H.levels harts.new ≡ H.levels harts.old }
{
    let mut tasks = Vec::with_capacity(alloc, 2)?;
    tasks.push_reserved(first);
    tasks.push_reserved(second);
    let mut outputs = harts.fork_join(alloc, tasks)?;
    let Some(back) = outputs.pop() else {
        unreachable!()
    };
    let Some(front) = outputs.pop() else {
        unreachable!()
    };
    Ok((front, back))
}

// Does the work, if there is any.
fn done<W: Work>(work: Option<W>) -> Option<W::Output>
    requires { MatchOption work (Unit {0}) W.can }
    ensures { MatchOption work (Unit {0})
        (λ work. (output : W.Output) × (result ≡ Some output) × W.gives work output) }
{
    match work {
        Some(work) => Some(work.work()),
        None => None,
    }
}

// Does two pieces of work on several harts.
fn do_both<V: Work + Send, W: Work + Send, R: Threads + Wait + Sync>(
    rt: &R,
    alloc: Global,
    harts: u8,
    first: V,
    second: W,
) -> Result<(V::Output, W::Output), RunError<AllocError>>
where
    V::Output: Send,
    W::Output: Send,
    requires first { V.can first }
    requires second { W.can second }
    ensures outputs { IfOk result
        (λ outputs. V.gives first outputs.0 × W.gives second outputs.1) }
    ensures error { IfErr result (RunFails 8 harts 1 (λ _. ⊥) (λ error. error ≡ alloc_error)) }
    ensures harts { (harts ≡ 0) ⊎ (64 < harts) → result ≡ Err (RunError.HartCount harts) }
{
    let pair = Pair {
        first: Some(first),
        second: Some(second),
        inside: 1,
    };
    let (front, back) = run_on_eight_levels(rt, alloc, harts, 1, pair)?;
    let Some(first_output) = front else {
        unreachable!()
    };
    let Some(second_output) = back else {
        unreachable!()
    };
    Ok((first_output, second_output))
}

/// Calls two closures on `harts` harts, and returns both results. `harts` is 1 to 64. On one hart the first is called before the
/// second.
///
/// # Errors
///
/// `HartCount` exactly if `harts` is out of range; neither closure is called then. `Task` if an allocation fails; there is no other
/// error.
///
/// # Memory
///
/// As that of `run_on` with one level, and two lists of two elements.
pub fn join_on<A, B, F, G, R>(
    rt: &R,
    alloc: Global,
    harts: u8,
    first: F,
    second: G,
) -> Result<(A, B), RunError<AllocError>>
where
    A: Drop + Send,
    B: Drop + Send,
    F: FnOnce() -> A + Drop + Send,
    G: FnOnce() -> B + Drop + Send,
    R: Threads + Wait + Sync,
    requires first { F.pre first }
    requires second { G.pre second }
    ensures outputs { IfOk result
        (λ outputs. F.post first outputs.0 × G.post second outputs.1) }
    ensures error { IfErr result (RunFails 8 harts 1 (λ _. ⊥) (λ error. error ≡ alloc_error)) }
    ensures harts { (harts ≡ 0) ⊎ (64 < harts) → result ≡ Err (RunError.HartCount harts) }
{
    do_both(rt, alloc, harts, Once(first), Once(second))
}

//! The harts of a run.
ghost use Rattle.std.specs.Prelude.{◌≡◌, ◌<◌, ◌≤◌, ◌+◌, ◌⊎◌, ℕ, Ok, IfOk, IfErr, MatchResult, vec_len, vec_capacity, alloc_error, Err, []};
ghost use Rattle.std.specs.List.{All};
ghost use Rattle.open_board.specs.Of.{IsOf};
ghost use Rattle.task_table.specs.Slots.{Ends};
ghost use Rattle.task_crew.specs.Runs.{RunFails, IsReason, IsSeatOf, AreSeated, AllAreHome};

use crate::error::RunError;
use open_board::{EndRefused, NotEnded, OpenBoard, OpenSeat};
use std::alloc::{AllocError, Global};
use std::marker::Brand;
use std::sync::Wait;
use std::thread;
use std::thread::Threads;
use task_sites::{Crew, Hart, Levels, Naming, NoLevel, Observer, OneMore, Unobserved, serve_base};
use task_table::Outcome;
use tasks::{Task, run_alone};

/// The most harts of a run.
pub const MOST_HARTS: u8 = 64;

/// The most levels of a run.
pub const MOST_LEVELS: u8 = 16;

/// A task that is to run with at most `levels` levels inside it, and the board and the seats of the harts on which it runs.
pub(crate) struct Run<T> {
    pub alloc: Global,
    pub board: OpenBoard,
    pub seats: Vec<OpenSeat>,
    pub levels: u8,
    pub task: T,
}

/// Four levels more than `L`. Why four at a time: a goal that names sixteen is too large to prove.
pub(crate) type FourMore<L> = OneMore<OneMore<OneMore<OneMore<L>>>>;

/// Runs a task on `harts` harts, with at most `levels` levels of tasks inside it, and returns its output. `harts` is 1 to 64,
/// and `levels` is 0 to 16. When it returns, all tasks have ended, and all threads that it started.
///
/// Levels beyond the depth of the task cost memory alone. The task, its output and its error are `Send`, so what the task borrows
/// is `Sync`.
///
/// # Errors
///
/// `HartCount` and `LevelCount` exactly if the number is out of range; nothing is started then. `Task` if the task fails or an
/// allocation fails. There is no other error: the outcome of a task that has ended is always returned.
///
/// # Memory
///
/// On two harts and more: `64 * (harts * levels + 1)` bytes for the board, some 200 bytes for each of the `harts * levels` sites,
/// and some cache lines for each hart.
pub fn run_on<T: Task + Send, R: Threads + Wait + Sync>(
    rt: &R,
    alloc: Global,
    harts: u8,
    levels: u8,
    task: T,
) -> Result<T::Output, RunError<T::Error>>
where
    T::Output: Send,
    T::Error: Send,
    requires depth { T.depth task ≤ levels }
    requires ready { T.ready task }
    ensures output { IfOk result (λ output. T.gives task output) }
    ensures error { IfErr result
        (RunFails 16 harts levels (T.fails task) (T.Error.from_gives alloc_error)) }
    ensures harts { (harts ≡ 0) ⊎ (64 < harts) → result ≡ Err (RunError.HartCount harts) }
    ensures levels { (1 ≤ harts) → (harts ≤ 64) → (16 < levels) → result
        ≡ Err (RunError.LevelCount levels) }
{
    if harts == 1 && levels <= MOST_LEVELS {
        return ran(run_alone(alloc, task));
    }
    let unobserved = Unobserved::new(rt);
    run_observed::<T, Unobserved<'_, R>>(&unobserved, alloc, harts, levels, task)
}

/// Runs a task as [`run_on`] does, with an observer: `rt` gets a call when a task begins and when it ends, and if a hart is still
/// in a site at the end.
///
/// # Errors
///
/// As [`run_on`]'s.
///
/// # Memory
///
/// As [`run_on`]'s, also on one hart.
pub fn run_observed<T: Task + Send, R: Threads + Observer + Sync>(
    rt: &R,
    alloc: Global,
    harts: u8,
    levels: u8,
    task: T,
) -> Result<T::Output, RunError<T::Error>>
where
    T::Output: Send,
    T::Error: Send,
    requires depth { T.depth task ≤ levels }
    requires ready { T.ready task }
    ensures output { IfOk result (λ output. T.gives task output) }
    ensures error { IfErr result
        (RunFails 16 harts levels (T.fails task) (T.Error.from_gives alloc_error)) }
    ensures harts { (harts ≡ 0) ⊎ (64 < harts) → result ≡ Err (RunError.HartCount harts) }
    ensures levels { (1 ≤ harts) → (harts ≤ 64) → (16 < levels) → result
        ≡ Err (RunError.LevelCount levels) }
{
    if harts == 0 || harts > MOST_HARTS {
        return Err(RunError::HartCount(harts));
    }
    if levels > MOST_LEVELS {
        return Err(RunError::LevelCount(levels));
    }
    match OpenBoard::new(alloc, harts, levels.max(1)) {
        Ok((board, seats)) => ran(run_sixteen::<Brand, T, R>(
            rt,
            Run {
                alloc,
                board,
                seats,
                levels,
                task,
            },
        )),
        Err(error) => Err(RunError::Task(T::Error::from(error))),
    }
}

/// The result of a run whose task has ended.
pub(crate) fn ran<O, E>(outcome: Result<O, E>) -> Result<O, RunError<E>>
    ensures { MatchResult outcome (λ output. result ≡ Ok output)
        (λ error. result ≡ Err (RunError.Task error)) }
{
    match outcome {
        Ok(output) => Ok(output),
        Err(error) => Err(RunError::Task(error)),
    }
}

// Runs a task on the harts of a board, with at most sixteen levels, and ends the board.
fn run_sixteen<B, T, R>(rt: &R, run: Run<T>) -> Outcome<T>
where
    B: Naming + Send + Sync,
    T: Task + Send,
    R: Threads + Observer + Sync,
    T::Output: Send,
    T::Error: Send,
    requires seated { AreSeated B.table B.size run.board run.seats.items }
    requires depth { T.depth run.task ≤ run.levels }
    requires ready { T.ready run.task }
    requires levels { run.levels ≤ 16 }
    ensures { Ends T.gives T.fails (T.Error.from_gives alloc_error) run.task result }
{
    run_twelve_more::<B, T, R, FourMore<NoLevel>>(rt, run)
}

// The same, with at most twelve levels more than `L`.
fn run_twelve_more<B, T, R, L>(rt: &R, run: Run<T>) -> Outcome<T>
where
    B: Naming + Send + Sync,
    T: Task + Send,
    R: Threads + Observer + Sync,
    L: Levels<T, R, B> + Send + Sync,
    T::Output: Send,
    T::Error: Send,
    requires seated { AreSeated B.table B.size run.board run.seats.items }
    requires depth { T.depth run.task ≤ run.levels }
    requires ready { T.ready run.task }
    requires levels { run.levels ≤ 12 + L.count }
    ensures { Ends T.gives T.fails (T.Error.from_gives alloc_error) run.task result }
{
    run_eight_more::<B, T, R, FourMore<L>>(rt, run)
}

// The same, with at most eight levels more than `L`.
fn run_eight_more<B, T, R, L>(rt: &R, run: Run<T>) -> Outcome<T>
where
    B: Naming + Send + Sync,
    T: Task + Send,
    R: Threads + Observer + Sync,
    L: Levels<T, R, B> + Send + Sync,
    T::Output: Send,
    T::Error: Send,
    requires seated { AreSeated B.table B.size run.board run.seats.items }
    requires depth { T.depth run.task ≤ run.levels }
    requires ready { T.ready run.task }
    requires levels { run.levels ≤ 8 + L.count }
    ensures { Ends T.gives T.fails (T.Error.from_gives alloc_error) run.task result }
{
    run_four_more::<B, T, R, FourMore<L>>(rt, run)
}

/// The same, with at most four levels more than `L`.
pub(crate) fn run_four_more<B, T, R, L>(rt: &R, run: Run<T>) -> Outcome<T>
where
    B: Naming + Send + Sync,
    T: Task + Send,
    R: Threads + Observer + Sync,
    L: Levels<T, R, B> + Send + Sync,
    T::Output: Send,
    T::Error: Send,
    requires seated { AreSeated B.table B.size run.board run.seats.items }
    requires depth { T.depth run.task ≤ run.levels }
    requires ready { T.ready run.task }
    requires levels { run.levels ≤ 4 + L.count }
    ensures { Ends T.gives T.fails (T.Error.from_gives alloc_error) run.task result }
{
    run_named::<B, T, R, FourMore<L>>(rt, run)
}

// Runs a task on the harts of a board, with the levels of `L`, and ends the board. If the board refuses to end, the observer
// gets the reason, and the caller still gets the outcome.
fn run_named<B, T, R, L>(rt: &R, run: Run<T>) -> Outcome<T>
where
    B: Naming + Send + Sync,
    T: Task + Send,
    R: Threads + Observer + Sync,
    L: Levels<T, R, B> + Send + Sync,
    T::Output: Send,
    T::Error: Send,
    requires seated { AreSeated B.table B.size run.board run.seats.items }
    requires depth { T.depth run.task ≤ run.levels }
    requires ready { T.ready run.task }
    requires levels { run.levels ≤ L.count }
    ensures { Ends T.gives T.fails (T.Error.from_gives alloc_error) run.task result }
{
    let Run {
        alloc,
        board,
        seats,
        levels,
        task,
    } = run;
    let crew = Crew::<T, B>::new(alloc, board)?;
    let (outcome, seats) = run_crew::<B, T, R, L>(rt, alloc, &crew, seats, levels, task)?;
    if let Err(why) = go_home(crew.into_board(), seats) {
        if rt.is_on() {
            rt.harts_stay(why);
        }
    }
    outcome
}

// Ends a board: all harts are at the base again.
fn go_home(board: OpenBoard, seats: Vec<OpenSeat>) -> Result<(), NotEnded>
    requires { All (IsOf board) seats.items }
    ensures ended { IfOk result (λ _. AllAreHome board.size seats.items) }
    ensures refused { IfErr result (IsReason board.size.harts) }
{
    match board.checked_end(seats) {
        Ok(()) => Ok(()),
        Err(refused) => {
            let EndRefused {
                board: _,
                seats: _,
                why,
            } = refused;
            Err(why)
        }
    }
}

// Runs a task on the first of the harts, while the others are lent to the sites inside it. Returns the outcome and the seats. If
// an allocation fails, the task hasn't begun.
fn run_crew<B, T, R, L>(
    rt: &R,
    alloc: Global,
    crew: &Crew<T, B>,
    mut seats: Vec<OpenSeat>,
    levels: u8,
    task: T,
) -> Result<(Outcome<T>, Vec<OpenSeat>), AllocError>
where
    B: Naming + Send + Sync,
    T: Task + Send,
    R: Threads + Observer + Sync,
    L: Levels<T, R, B> + Send + Sync,
    T::Output: Send,
    T::Error: Send,
    requires seats { All (IsSeatOf B.table B.size) seats.items }
    requires some { 1 ≤ vec_len seats }
    requires depth { T.depth task ≤ levels }
    requires ready { T.ready task }
    requires levels { levels ≤ L.count }
    ensures outcome { IfOk result
        (λ r. Ends T.gives T.fails (T.Error.from_gives alloc_error) task r.0) }
    ensures seats { IfOk result (λ r. All (IsSeatOf B.table B.size) r.1.items) }
{
    let room = Vec::with_capacity(alloc, seats.len())?;
    let home: Hart<'_, T, R, B> = Hart::new(rt, crew, seats.remove(0));
    let guests = seated(rt, alloc, crew, seats)?;
    // Why: `join` starts a thread, also for no guest.
    if guests.is_empty() {
        let (home, outcome) = run_home::<B, T, R, L>(alloc, crew, home, levels, task);
        return Ok((outcome, seats_of(room, home, guests)));
    }
    let (guests, (home, outcome)) = thread::join(
        rt,
        move || -> Vec<Hart<'_, T, R, B>>
            ensures { vec_len result ≡ vec_len guests.entry }
        { serve_all::<B, T, R, L>(rt, alloc, guests) },
        move || -> (Hart<'_, T, R, B>, Outcome<T>)
            requires { (T.depth task ≤ levels) × (levels ≤ L.count) × T.ready task }
            ensures { Ends T.gives T.fails (T.Error.from_gives alloc_error) task result.1 }
        { run_home::<B, T, R, L>(alloc, crew, home, levels, task) },
    );
    Ok((outcome, seats_of(room, home, guests)))
}

// Seats the harts of a crew, the last first.
fn seated<'c, B: Naming, T: Task, R>(
    rt: &'c R,
    alloc: Global,
    crew: &'c Crew<T, B>,
    mut seats: Vec<OpenSeat>,
) -> Result<Vec<Hart<'c, T, R, B>>, AllocError>
    requires { All (IsSeatOf B.table B.size) seats.items }
    ensures { IfOk result (λ harts. vec_len harts ≡ vec_len seats) }
{
    let mut harts = Vec::with_capacity(alloc, seats.len())?;
    'seats: while let Some(seat) = seats.pop() {
        harts.push(Hart::new(rt, crew, seat))?;
    }
    Ok(harts)
}

// Runs a task on a hart, and ends the run.
fn run_home<'c, B: Naming, T: Task, R: Observer, L: Levels<T, R, B>>(
    alloc: Global,
    crew: &Crew<T, B>,
    home: Hart<'c, T, R, B>,
    levels: u8,
    task: T,
) -> (Hart<'c, T, R, B>, Outcome<T>)
    requires depth { T.depth task ≤ levels }
    requires ready { T.ready task }
    requires levels { levels ≤ L.count }
    ensures { Ends T.gives T.fails (T.Error.from_gives alloc_error) task result.1 }
{
    let outcome = L::run_task(alloc, &home, levels, task);
    crew.end();
    (home, outcome)
}

// Lends the harts, each on a thread, until the run has ended.
fn serve_all<'c, B, T, R, L>(
    rt: &R,
    alloc: Global,
    mut guests: Vec<Hart<'c, T, R, B>>,
) -> Vec<Hart<'c, T, R, B>>
where
    B: Naming + Send + Sync,
    T: Task + Send,
    R: Threads + Observer + Sync,
    L: Levels<T, R, B> + Send + Sync,
    T::Output: Send,
    T::Error: Send,
    ensures { vec_len result ≡ vec_len guests.entry }
{
    let parts = guests.len().max(1);
    thread::for_each_mut(
        rt,
        guests.as_mut_slice(),
        parts,
        &|_, guest| serve_base::<T, R, B, L>(alloc, guest),
    );
    guests
}

// The seats of all harts, in the order of their numbers.
fn seats_of<'c, B: Naming, T: Task, R>(
    room: Vec<OpenSeat>,
    home: Hart<'c, T, R, B>,
    mut guests: Vec<Hart<'c, T, R, B>>,
) -> Vec<OpenSeat>
    requires empty { room.items ≡ [] }
    requires room { vec_len guests + 1 ≤ vec_capacity room }
    ensures seats { All (IsSeatOf B.table B.size) result.items }
    ensures count { vec_len result ≡ vec_len guests.entry + 1 }
{
    let mut seats = room;
    seats.push_reserved(home.into_seat());
    'guests: while let Some(guest) = guests.pop() {
        seats.push_reserved(guest.into_seat());
    }
    seats
}

//! Reductions over a range.
ghost use Rattle.std.specs.Prelude.{◌≡◌, ◌≤◌, ◌<◌, ◌+◌, ◌⊎◌, ℕ, Some, IfOk, IfErr, refl, alloc_error};

use held_tasks::{Holds, join_as};
use std::alloc::{AllocError, Global};
use tasks::{Harts, Task, TaskKind};

/// What has indices: 0 up to a number.
///
/// Why a trait of its own: a [`Part`] is inside the indices of its fold, whatever the outputs are.
pub trait Indices: Copy {
    /// The number of indices.
    ghost size: { Self → ℕ };

    /// The number of indices.
    fn count(&self) -> usize
        ensures { result ≡ size self.now };
}

/// The outputs of ranges of indices, and how the outputs of two neighbours are joined.
pub trait Fold: Indices {
    /// The output of a range.
    type Output: Drop;

    /// Why a range fails. An allocation failure becomes such an error by `From`.
    type Error: Drop + From<AllocError>;

    /// The outputs that the indices from the first number up to the second may have.
    ghost gives: { Self → ℕ → ℕ → Self.Output → Type 0 };

    /// The errors that this range may fail with, beside an allocation failure.
    ghost fails: { Self → ℕ → ℕ → Self.Error → Type 0 };

    /// How many levels of tasks may be inside one leaf.
    ghost depth: { Self → ℕ };

    /// What an index requires to be run. By default nothing. A range requires what its indices require.
    ghost ready: { Self → ℕ → Type 0 } = { λ _ _. Unit {0} };

    /// Joins the outputs of two neighbouring ranges, in order.
    ///
    /// # Errors
    ///
    /// An allocation failure.
    fn join(&self, front: Self::Output, back: Self::Output) -> Result<Self::Output, Self::Error>
        ensures output { IfOk result (λ output. (low middle high : ℕ) → low ≤ middle → middle ≤ high
            → gives self.now low middle front → gives self.now middle high back
            → gives self.now low high output) }
        ensures error { IfErr result (λ error. Self.Error.from_gives alloc_error error) };

    /// If the front part of a range fails, the range fails.
    ghost front_fails: { (fold : Self) (low middle high : ℕ) (error : Self.Error) → low ≤ middle → middle ≤ high
        → fails fold low middle error → fails fold low high error };

    /// If the front part of a range has an output and the back part fails, the range fails.
    ghost back_fails: { (fold : Self) (low middle high : ℕ) (output : Self.Output) (error : Self.Error)
        → low ≤ middle → middle ≤ high
        → gives fold low middle output → fails fold middle high error → fails fold low high error };
}

/// How one hart runs a short range.
///
/// Why a trait of its own: a leaf may run tasks of the kind `V`, around the loop, and so call other libraries.
pub trait Leaf<V: TaskKind>: Fold {
    /// Runs the indices from `low` up to `high`.
    ///
    /// # Errors
    ///
    /// An error of the fold's own, or an allocation failure.
    fn run<H: Harts<V>>(
        &self,
        alloc: Global,
        harts: &mut H,
        low: usize,
        high: usize,
    ) -> Result<Self::Output, Self::Error>
        requires in_order { low ≤ high }
        requires within { high ≤ Self.size self.now }
        requires levels { Self.depth self.now ≤ H.levels harts.old }
        requires ready { (index : ℕ) → low ≤ index → index < high → Self.ready self.now index }
        ensures output { IfOk result (λ output. Self.gives self.now low high output) }
        ensures error { IfErr result (λ error. Self.fails self.now low high error
            ⊎ Self.Error.from_gives alloc_error error) }
        ensures levels { H.levels harts.new ≡ H.levels harts.old };
}

/// A range of a fold, as a task. [`Part::whole`] has all indices, and [`run_fold`] cuts it.
#[derive(Drop)]
pub struct Part<F: Indices> {
    /// The fold, of which each part of a range has a copy.
    pub fold: F,
    /// The first index.
    pub low: usize,
    /// The index after the last.
    pub high: usize,
    /// How many levels of parts may be inside this part: the range is cut into at most 2^cuts leaves.
    pub cuts: u8,
    /// One hart runs a range that has fewer indices.
    pub shortest: usize,
    /// The range isn't reversed.
    ghost in_order: { low ≤ high },
    /// The fold has all indices of the range.
    ghost within: { high ≤ F.size fold },
}

impl<F: Indices> Part<F> {
    /// All indices of a fold, which are cut into at most 2^`cuts` leaves. One hart runs a range of fewer than `shortest`
    /// indices.
    pub fn whole(fold: F, cuts: u8, shortest: usize) -> Part<F>
        ensures fold { result.fold ≡ fold }
        ensures low { result.low ≡ 0 }
        ensures high { result.high ≡ F.size fold }
        ensures cuts { result.cuts ≡ cuts }
        ensures shortest { result.shortest ≡ shortest }
    {
        let high = fold.count();
        Part {
            fold,
            low: 0,
            high,
            cuts,
            shortest,
        }
    }
}

impl<F: Fold> TaskKind for Part<F> {
    type Output = F::Output;

    type Error = F::Error;

    ghost gives = { λ task output. F.gives task.fold task.low task.high output };

    ghost fails = { λ task error. F.fails task.fold task.low task.high error };

    ghost depth = { λ task. task.cuts + F.depth task.fold };

    ghost ready = { λ task. (index : ℕ) → task.low ≤ index → index < task.high → F.ready task.fold index };
}

impl<F: Fold> Holds<Part<F>> for Part<F> {
    ghost held = { λ task. task };

    ghost same_depth = { λ _. refl };

    ghost same_outcome = { λ _ output given. (output, given) };

    fn hold(task: Part<F>) -> Part<F>
        ensures { result ≡ task }
    {
        task
    }

    fn output_of(output: F::Output) -> Option<F::Output>
        ensures { result ≡ Some output }
    {
        Some(output)
    }

    fn error_of(error: F::Error) -> F::Error
        ensures { result ≡ error }
    {
        error
    }
}

impl<F: Fold + Leaf<Part<F>>> Task for Part<F> {
    fn run<H: Harts<Self>>(self, alloc: Global, harts: &mut H) -> Result<F::Output, F::Error> {
        run_fold::<F, Part<F>, H>(alloc, harts, self)
    }
}

/// Runs a range inside tasks of any kind that holds its parts, and returns the range's output.
///
/// # Errors
///
/// An error of the fold's own, or an allocation failure.
///
/// # Memory
///
/// For each cut what [`join_as`] and the fold's `join` allocate.
pub fn run_fold<F: Leaf<V>, V: Holds<Part<F>>, H: Harts<V>>(
    alloc: Global,
    harts: &mut H,
    part: Part<F>,
) -> Result<F::Output, F::Error>
    requires levels { part.cuts + F.depth part.fold ≤ H.levels harts.old }
    requires ready { (index : ℕ) → part.low ≤ index → index < part.high → F.ready part.fold index }
    ensures output { IfOk result (λ output. F.gives part.fold part.low part.high output) }
    ensures error { IfErr result (λ error. F.fails part.fold part.low part.high error
        ⊎ F.Error.from_gives alloc_error error) }
    ensures levels { H.levels harts.new ≡ H.levels harts.old }
{
    let Part {
        fold,
        low,
        high,
        cuts,
        shortest,
    } = part;
    let count = high - low;
    if cuts == 0 || count < 2 || count < shortest {
        return fold.run(alloc, harts, low, high);
    }
    let cuts = cuts - 1;
    let middle = low + count / 2;
    let front = Part {
        fold,
        low,
        high: middle,
        cuts,
        shortest,
    };
    let back = Part {
        fold,
        low: middle,
        high,
        cuts,
        shortest,
    };
    let (front, back) = join_as::<Part<F>, V, H>(alloc, harts, front, back)?;
    let whole = fold.join(front, back)?;
    Ok(whole)
}

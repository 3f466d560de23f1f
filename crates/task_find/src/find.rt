//! The search.
ghost use Rattle.std.specs.Prelude.{◌≡◌, ◌≤◌, ℕ, Bool, length, IfOk, IfErr, alloc_error};
ghost use Rattle.std.specs.List.{position};
ghost use Rattle.task_find.specs.Passing.{NonePass, FirstPass, front_first, back_first};

use held_tasks::Holds;
use std::alloc::{AllocError, Global};
use task_loops::{Fold, Indices, Leaf, Part, run_fold};
use tasks::{Harts, TaskKind};

/// A test of one element.
pub trait Predicate<A> {
    /// Whether an element passes.
    ghost passes: { Self → A → Bool };

    /// Reports whether an element passes.
    fn passes(&self, element: &A) -> bool
        ensures { result ≡ passes self.now element.now };
}

/// Why the search of a range has ended before the range's end.
#[derive(Debug, Drop, PartialEq)]
pub enum Found {
    /// The element at this index passes, and none before it in the range.
    At(usize),
    /// An allocation failed.
    OutOfMemory,
}

impl From<AllocError> for Found {
    ghost use Rattle.task_find.specs.declared.find.Found.TheVariants.{OutOfMemory};

    ghost from_gives = { λ _ error. error ≡ OutOfMemory };

    fn from(_error: AllocError) -> Found {
        Found::OutOfMemory
    }
}

/// A slice in which the first element that passes is looked for. A range without such an element outputs nothing, and a range with
/// one fails by [`Found::At`].
pub struct Find<'p, A, P> {
    /// The slice.
    pub elements: &'p [A],
    /// The test.
    pub predicate: &'p P,
}

impl<'p, A, P> Clone for Find<'p, A, P> {
    fn clone(&self) -> Result<Self, AllocError> {
        Ok(Find {
            elements: self.elements,
            predicate: self.predicate,
        })
    }
}

impl<'p, A, P> Copy for Find<'p, A, P> {}

impl<'p, A, P> Indices for Find<'p, A, P> {
    ghost size = { λ fold. length fold.elements.now };

    fn count(&self) -> usize
        ensures { result ≡ length self.now.elements.now }
    {
        self.elements.len()
    }
}

impl<'p, A, P: Predicate<A>> Fold for Find<'p, A, P> {
    ghost use Rattle.task_find.specs.declared.find.Found.TheVariants.{At};

    type Output = ();

    type Error = Found;

    ghost gives = { λ fold low high _. NonePass (P.passes fold.predicate.now) fold.elements.now low high };

    ghost fails = { λ fold low high error. (index : ℕ) × (error ≡ At index)
        × FirstPass (P.passes fold.predicate.now) fold.elements.now low high index };

    ghost depth = { λ _. 0 };

    fn join(&self, _front: (), _back: ()) -> Result<(), Found> {
        Ok(())
    }

    ghost front_fails = { λ fold low middle high error below above found.
        (found.0, found.1, front_first (P.passes fold.predicate.now) fold.elements.now low middle high found.0 above found.2) };

    ghost back_fails = { λ fold low middle high output error below above none found.
        (found.0, found.1, back_first (P.passes fold.predicate.now) fold.elements.now low middle high found.0 below none found.2) };
}

impl<'p, A, P: Predicate<A>, V: TaskKind> Leaf<V> for Find<'p, A, P> {
    fn run<H: Harts<V>>(
        &self,
        _alloc: Global,
        _harts: &mut H,
        low: usize,
        high: usize,
    ) -> Result<(), Found> {
        first_in(self.elements, self.predicate, low, high)
    }
}

// Tests the elements from one index up to another, in order, up to the first that passes.
fn first_in<A, P: Predicate<A>>(
    elements: &[A],
    predicate: &P,
    low: usize,
    high: usize,
) -> Result<(), Found>
    requires in_order { low ≤ high }
    requires within { high ≤ length elements.now }
    ensures none { IfOk result (λ _. NonePass (P.passes predicate.now) elements.now low high) }
    ensures first { IfErr result (λ error. (index : ℕ) × (error ≡ Found.At index)
        × FirstPass (P.passes predicate.now) elements.now low high index) }
{
    'indices: for index in low..high {
        if predicate.passes(&elements[index]) {
            return Err(Found::At(index));
        }
    }
    Ok(())
}

/// Returns the index of the first element that passes, or `None` if none passes. It runs inside tasks of any kind that holds the
/// ranges of the search.
///
/// # Errors
///
/// An allocation failure.
///
/// # Memory
///
/// What [`run_fold`] allocates.
#[tactic(auto, using(crate::proofs::Positions::none_position))]
pub fn find_first<'p, A, P: Predicate<A>, V: Holds<Part<Find<'p, A, P>>>, H: Harts<V>>(
    alloc: Global,
    harts: &mut H,
    find: Find<'p, A, P>,
    cuts: u8,
    shortest: usize,
) -> Result<Option<usize>, AllocError>
    requires { cuts ≤ H.levels harts.old }
    ensures found { IfOk result
        (λ found. found ≡ position (P.passes find.entry.predicate.now) find.entry.elements.now) }
    ensures error { IfErr result (λ error. error ≡ alloc_error) }
    ensures levels { H.levels harts.new ≡ H.levels harts.old }
{
    let whole = Part::whole(find, cuts, shortest);
    match run_fold::<Find<'p, A, P>, V, H>(alloc, harts, whole) {
        Ok(()) => Ok(None),
        Err(Found::At(index)) => Ok(Some(index)),
        Err(Found::OutOfMemory) => Err(AllocError),
    }
}

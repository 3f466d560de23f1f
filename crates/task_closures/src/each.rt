//! A closure at each element of a slice, and at each index of a range.
ghost use Rattle.std.specs.Prelude.{◌≡◌, ◌≤◌, ◌<◌, ◌⊎◌, ℕ, All, IfOk, IfErr, Err, alloc_error};
ghost use Rattle.std.specs.List.{AllZip};
ghost use Rattle.std.specs.Fn.{FnReturnsAt};
ghost use Rattle.task_crew.specs.Runs.{RunFails};
ghost use Rattle.task_closures.specs.Calls.{TakesAt};

use crate::parts::cuts_for;
use std::alloc::{AllocError, Global};
use std::ops::Range;
use std::sync::Wait;
use std::thread::Threads;
use task_crew::{RunError, run_on_eight_levels};
use task_loops::{Body, Each, Map, Mapped, Part};

/// A closure that is called at each element, or at each index.
pub struct Called<'f, F> {
    f: &'f F,
}

impl<'f, F> Clone for Called<'f, F> {
    fn clone(&self) -> Result<Self, AllocError> {
        Ok(Called { f: self.f })
    }
}

impl<'f, F> Copy for Called<'f, F> {}

impl<'f, A, X: Drop, F: Fn(&A) -> X> Map<A> for Called<'f, F> {
    type Image = X;

    ghost can = { λ called element. TakesAt F.Fn called.f.now element };

    ghost image = { λ called element image. FnReturnsAt F.Fn called.f.now element image };

    fn image_of(&self, _alloc: Global, element: &A) -> Result<X, AllocError> {
        Ok((self.f)(element))
    }
}

impl<'f, F: Fn(usize)> Body for Called<'f, F> {
    ghost can = { λ called index. F.pre called.f.now index };

    ghost done = { λ called index. F.post called.f.now index tt };

    fn run_at(&self, index: usize) {
        (self.f)(index);
    }
}

// The image of each element, on several harts.
fn images_on<A: Sync, M: Map<A> + Send, R: Threads + Wait + Sync>(
    rt: &R,
    alloc: Global,
    harts: u8,
    elements: &[A],
    map: M,
) -> Result<Vec<M::Image>, RunError<AllocError>>
where
    M::Image: Send,
    requires { All (M.can map) elements.now }
    ensures images { IfOk result (λ images. AllZip (M.image map) elements.now images.items) }
    ensures error { IfErr result (RunFails 8 harts 8 (λ _. ⊥) (λ error. error ≡ alloc_error)) }
    ensures harts { (harts ≡ 0) ⊎ (64 < harts) → result ≡ Err (RunError.HartCount harts) }
{
    let whole = Part::whole(Mapped { elements, map }, cuts_for(harts), 1);
    run_on_eight_levels(rt, alloc, harts, 8, whole)
}

/// Calls a closure at each element of a slice, on `harts` harts, and returns the results in the order of the elements. `harts` is
/// 1 to 64.
///
/// # Errors
///
/// `HartCount` exactly if `harts` is out of range; the closure isn't called then. `Task` if an allocation fails; there is no other
/// error.
///
/// # Memory
///
/// As that of `run_on` with eight levels, and a list for each of some four parts a hart, which grow to the result.
pub fn map_on<A, X, F, R>(
    rt: &R,
    alloc: Global,
    harts: u8,
    elements: &[A],
    f: F,
) -> Result<Vec<X>, RunError<AllocError>>
where
    A: Sync,
    X: Drop + Send,
    F: Fn(&A) -> X + Sync,
    R: Threads + Wait + Sync,
    requires { All (TakesAt F.Fn f) elements.now }
    ensures images { IfOk result (λ images. AllZip (FnReturnsAt F.Fn f) elements.now images.items) }
    ensures error { IfErr result (RunFails 8 harts 8 (λ _. ⊥) (λ error. error ≡ alloc_error)) }
    ensures harts { (harts ≡ 0) ⊎ (64 < harts) → result ≡ Err (RunError.HartCount harts) }
{
    images_on(rt, alloc, harts, elements, Called { f: &f })
}

// Runs a body at each index of a range, on several harts.
fn run_each_on<B: Body + Send, R: Threads + Wait + Sync>(
    rt: &R,
    alloc: Global,
    harts: u8,
    low: usize,
    high: usize,
    body: B,
) -> Result<(), RunError<AllocError>>
    requires in_order { low ≤ high }
    requires can { (index : ℕ) → low ≤ index → index < high → B.can body index }
    ensures done { IfOk result (λ _. (index : ℕ) → low ≤ index → index < high → B.done body index) }
    ensures error { IfErr result (RunFails 8 harts 8 (λ _. ⊥) (λ error. error ≡ alloc_error)) }
    ensures harts { (harts ≡ 0) ⊎ (64 < harts) → result ≡ Err (RunError.HartCount harts) }
{
    let part = Part {
        fold: Each { body, count: high },
        low,
        high,
        cuts: cuts_for(harts),
        shortest: 1,
    };
    run_on_eight_levels(rt, alloc, harts, 8, part)
}

/// Calls a closure at each index of a range, on `harts` harts. `harts` is 1 to 64.
///
/// No contract states in which order the calls run, or on which hart.
///
/// # Errors
///
/// `HartCount` exactly if `harts` is out of range; the closure isn't called then. `Task` if an allocation fails; the closure may
/// have been called at some of the indices then. There is no other error.
///
/// # Memory
///
/// As that of `run_on` with eight levels, and a list of two tasks for each of some four parts a hart.
pub fn for_each_on<F, R>(
    rt: &R,
    alloc: Global,
    harts: u8,
    range: Range<usize>,
    f: F,
) -> Result<(), RunError<AllocError>>
where
    F: Fn(usize) + Sync,
    R: Threads + Wait + Sync,
    requires { (index : ℕ) → range.start ≤ index → index < range.end → F.pre f index }
    ensures done { IfOk result (λ _. (index : ℕ) → range.start ≤ index → index < range.end → F.post f index tt) }
    ensures error { IfErr result (RunFails 8 harts 8 (λ _. ⊥) (λ error. error ≡ alloc_error)) }
    ensures harts { (harts ≡ 0) ⊎ (64 < harts) → result ≡ Err (RunError.HartCount harts) }
{
    let low = range.start.min(range.end);
    run_each_on(rt, alloc, harts, low, range.end, Called { f: &f })
}

//! Loops over the elements of a slice, and over indices.
ghost use Rattle.std.specs.Prelude.{◌≡◌, ◌≤◌, ◌<◌, ◌⊎◌, ℕ, All, length, slice_index_or, IsOk, IfOk, IfErr, alloc_error};
ghost use Rattle.std.specs.List.{AllZip};
ghost use Rattle.task_loops.specs.Ranges.{between};

use crate::fold::{Fold, Indices, Leaf, Part, run_fold};
use held_tasks::Holds;
use std::alloc::{AllocError, Global};
use tasks::{Harts, TaskKind};

/// A function of one element.
pub trait Map<A>: Copy {
    /// The image of an element.
    type Image: Drop;

    /// What the function requires of an element. By default nothing.
    ghost can: { Self → A → Type 0 } = { λ _ _. Unit {0} };

    /// The images that an element may have.
    ghost image: { Self → A → Self.Image → Type 0 };

    /// Computes the image of an element.
    ///
    /// # Errors
    ///
    /// An allocation failure.
    fn image_of(&self, alloc: Global, element: &A) -> Result<Self::Image, AllocError>
        requires { can self.now element.now }
        ensures image { IfOk result (λ output. image self.now element.now output) }
        ensures error { IfErr result (λ error. error ≡ alloc_error) };
}

/// A function applied to each element of a slice. The output is the list of the images, in the slice's order.
pub struct Mapped<'p, A, M> {
    /// The slice.
    pub elements: &'p [A],
    /// The function.
    pub map: M,
}

impl<'p, A, M: Copy> Clone for Mapped<'p, A, M> {
    ghost is_clone = { λ mapped copy. (copy.elements ≡ mapped.elements) × M.is_clone mapped.map copy.map };

    ghost is_infallible = { λ mapped. M.is_infallible mapped.map };

    fn clone(&self) -> Result<Self, AllocError> {
        let map = self.map.clone()?;
        Ok(Mapped {
            elements: self.elements,
            map,
        })
    }
}

impl<'p, A, M: Copy> Copy for Mapped<'p, A, M> {}

impl<'p, A, M: Copy> Indices for Mapped<'p, A, M> {
    ghost size = { λ fold. length fold.elements.now };

    fn count(&self) -> usize
        ensures { result ≡ length self.now.elements.now }
    {
        self.elements.len()
    }
}

impl<'p, A, M: Map<A>> Fold for Mapped<'p, A, M> {
    type Output = Vec<M::Image>;

    type Error = AllocError;

    ghost gives = { λ fold low high output. AllZip (M.image fold.map) (between low high fold.elements.now) output.items };

    ghost fails = { λ _ _ _ _. ⊥ };

    ghost depth = { λ _. 0 };

    ghost ready = { λ fold index. (other : A) → M.can fold.map (slice_index_or fold.elements.now index other) };

    fn join(&self, front: Vec<M::Image>, back: Vec<M::Image>) -> Result<Vec<M::Image>, AllocError> {
        let mut images = front;
        let mut others = back;
        images.append(&mut others)?;
        Ok(images)
    }

    ghost front_fails = { λ _ _ _ _ _ _ _ no. no };

    ghost back_fails = { λ _ _ _ _ _ _ _ _ _ no. no };
}

impl<'p, A, M: Map<A>, V: TaskKind> Leaf<V> for Mapped<'p, A, M> {
    fn run<H: Harts<V>>(
        &self,
        alloc: Global,
        _harts: &mut H,
        low: usize,
        high: usize,
    ) -> Result<Vec<M::Image>, AllocError>
        requires in_order { low ≤ high }
        requires within { high ≤ length self.now.elements.now }
        requires levels { 0 ≤ H.levels _harts.old }
        requires ready { (index : ℕ) → low ≤ index → index < high
            → (other : A) → M.can self.now.map (slice_index_or self.now.elements.now index other) }
        ensures output { IfOk result
            (λ output. AllZip (M.image self.now.map) (between low high self.now.elements.now) output.items) }
        ensures error { IfErr result (λ error. ⊥ ⊎ (error ≡ alloc_error)) }
        ensures levels { H.levels _harts.new ≡ H.levels _harts.old }
    {
        let images = images_of(alloc, &self.map, &self.elements[low..high])?;
        Ok(images)
    }
}

// The images of the elements, in order.
fn images_of<A, M: Map<A>>(
    alloc: Global,
    map: &M,
    elements: &[A],
) -> Result<Vec<M::Image>, AllocError>
    requires { All (M.can map.now) elements.now }
    ensures output { IfOk result (λ output. AllZip (M.image map.now) elements.now output.items) }
    ensures error { IfErr result (λ error. error ≡ alloc_error) }
{
    let mut images = Vec::with_capacity(alloc, elements.len())?;
    'elements: for element in elements {
        let image = map.image_of(alloc, element)?;
        images.push(image)?;
    }
    Ok(images)
}

/// Applies a function to each element of a slice, by tasks inside tasks of any kind that holds them.
///
/// # Errors
///
/// An allocation failure.
///
/// # Memory
///
/// One list a leaf, which grows to the output, and what [`run_fold`] and the function allocate.
pub fn run_map<'p, A, M: Map<A>, V: Holds<Part<Mapped<'p, A, M>>>, H: Harts<V>>(
    alloc: Global,
    harts: &mut H,
    mapped: Mapped<'p, A, M>,
    cuts: u8,
    shortest: usize,
) -> Result<Vec<M::Image>, AllocError>
    requires levels { cuts ≤ H.levels harts.old }
    requires can { All (M.can mapped.map) mapped.elements.now }
    ensures output { IfOk result
        (λ output. AllZip (M.image mapped.entry.map) mapped.entry.elements.now output.items) }
    ensures error { IfErr result (λ error. error ≡ alloc_error) }
    ensures levels { H.levels harts.new ≡ H.levels harts.old }
{
    let whole = Part::whole(mapped, cuts, shortest);
    let images = run_fold::<Mapped<'p, A, M>, V, H>(alloc, harts, whole)?;
    Ok(images)
}

/// A body that runs at one index.
pub trait Body: Copy {
    /// What the body requires of an index. By default nothing.
    ghost can: { Self → ℕ → Type 0 } = { λ _ _. Unit {0} };

    /// What holds of an index once the body has run there.
    ghost done: { Self → ℕ → Type 0 };

    /// Runs the body at an index.
    fn run_at(&self, index: usize)
        requires { can self.now index }
        ensures { done self.now index };
}

/// A body that runs at each index from 0 up to a number.
#[derive(Clone, Copy)]
pub struct Each<B> {
    /// The body.
    pub body: B,
    /// The number of indices.
    pub count: usize,
}

impl<B: Copy> Indices for Each<B> {
    ghost size = { λ fold. fold.count };

    fn count(&self) -> usize
        ensures { result ≡ self.now.count }
    {
        self.count
    }
}

impl<B: Body> Fold for Each<B> {
    type Output = ();

    type Error = AllocError;

    ghost gives = { λ fold low high _. (index : ℕ) → low ≤ index → index < high → B.done fold.body index };

    ghost fails = { λ _ _ _ _. ⊥ };

    ghost depth = { λ _. 0 };

    ghost ready = { λ fold index. B.can fold.body index };

    fn join(&self, _front: (), _back: ()) -> Result<(), AllocError>
        ensures output { IfOk result (λ _. (low middle high : ℕ) → low ≤ middle → middle ≤ high
            → ((index : ℕ) → low ≤ index → index < middle → B.done self.now.body index)
            → ((index : ℕ) → middle ≤ index → index < high → B.done self.now.body index)
            → (index : ℕ) → low ≤ index → index < high → B.done self.now.body index) }
        ensures error { IfErr result (λ error. error ≡ alloc_error) }
        ensures ok { IsOk result }
    {
        Ok(())
    }

    ghost front_fails = { λ _ _ _ _ _ _ _ no. no };

    ghost back_fails = { λ _ _ _ _ _ _ _ _ _ no. no };
}

impl<B: Body, V: TaskKind> Leaf<V> for Each<B> {
    fn run<H: Harts<V>>(
        &self,
        _alloc: Global,
        _harts: &mut H,
        low: usize,
        high: usize,
    ) -> Result<(), AllocError>
        requires in_order { low ≤ high }
        requires within { high ≤ self.now.count }
        requires levels { 0 ≤ H.levels _harts.old }
        requires ready { (index : ℕ) → low ≤ index → index < high → B.can self.now.body index }
        ensures output { IfOk result
            (λ _. (index : ℕ) → low ≤ index → index < high → B.done self.now.body index) }
        ensures error { IfErr result (λ error. error ≡ alloc_error) }
        ensures ok { IsOk result }
        ensures levels { H.levels _harts.new ≡ H.levels _harts.old }
    {
        'indices: for index in low..high {
            self.body.run_at(index);
        }
        Ok(())
    }
}

/// Runs a body at each of its indices, by tasks inside tasks of any kind that holds them.
///
/// The contract states only that [`Body::done`] holds at each index afterwards. No contract states that the body runs once at an
/// index, in which order or on which hart it runs, or what it does to values that it shares. [`for_each_mut`](crate::for_each_mut)
/// states what each element of a slice becomes.
///
/// # Errors
///
/// An allocation failure. The body has then run at some of the indices.
///
/// # Memory
///
/// What [`run_fold`] allocates.
pub fn for_each<B: Body, V: Holds<Part<Each<B>>>, H: Harts<V>>(
    alloc: Global,
    harts: &mut H,
    each: Each<B>,
    cuts: u8,
    shortest: usize,
) -> Result<(), AllocError>
    requires levels { cuts ≤ H.levels harts.old }
    requires can { (index : ℕ) → index < each.count → B.can each.body index }
    ensures done { IfOk result (λ _. (index : ℕ) → index < each.count → B.done each.body index) }
    ensures error { IfErr result (λ error. error ≡ alloc_error) }
    ensures levels { H.levels harts.new ≡ H.levels harts.old }
{
    let whole = Part::whole(each, cuts, shortest);
    run_fold::<Each<B>, V, H>(alloc, harts, whole)
}

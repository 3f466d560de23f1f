//! A loop that changes the elements of a slice in place.
ghost use Rattle.std.specs.Prelude.{◌<◌, ℕ, length, slice_index_or};

use std::thread;
use std::thread::Threads;

/// A change of one element of a slice.
pub trait Change<A> {
    /// What the element at an index may become: the index, the element before, the element after.
    ghost becomes: { Self → ℕ → A → A → Type 0 };

    /// Changes the element at an index.
    fn change(&self, index: usize, element: &mut A)
        ensures { becomes self.now index element.old element.new };
}

/// Changes each element of a slice in place, on at most so many threads.
///
/// Why threads of its own, and not the harts of a task: a kind of tasks names one lifetime, so a task can't lend parts of a
/// mutable slice to tasks inside it and have the slice back when they end.
///
/// # Memory
///
/// Does not allocate. It starts fewer threads if the system refuses one.
pub fn for_each_mut<A: Send, C: Change<A> + Sync, R: Threads + Sync>(
    rt: &R,
    elements: &mut [A],
    threads: usize,
    change: &C,
)
    requires { 0 < threads }
    ensures { (index : ℕ) (other : A) → index < length elements.old
        → C.becomes change.now index (slice_index_or elements.old index other)
        (slice_index_or elements.new index other) }
{
    thread::for_each_mut(
        rt,
        elements,
        threads,
        &|index, element| { change.change(index, element) },
    );
}

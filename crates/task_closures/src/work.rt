//! A closure that is called once, as a task sees it.

/// Work that is done once.
///
/// Why a trait: a member of an `impl` for tasks can't cite what a closure requires, but it can cite a member of a trait.
pub trait Work: Drop {
    /// What the work results in.
    type Output: Drop;

    /// What the work requires.
    ghost can: { Self → Type 0 };

    /// The outputs that the work may have.
    ghost gives: { Self → Self.Output → Type 0 };

    /// Does the work.
    fn work(self) -> Self::Output
        requires { can self }
        ensures { gives self result };
}

/// A closure that is called once.
#[derive(Drop)]
pub struct Once<F>(pub F);

impl<A: Drop, F: FnOnce() -> A + Drop> Work for Once<F> {
    type Output = A;

    ghost can = { λ work. F.pre work.0 };

    ghost gives = { λ work output. F.post work.0 output };

    fn work(self) -> A {
        let Once(f) = self;
        f()
    }
}

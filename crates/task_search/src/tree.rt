//! Trees, and what a search looks for.
ghost use Rattle.std.specs.Prelude.{◌≡◌, Bool};

/// A value with the trees below it, in order.
#[derive(Drop)]
pub struct Tree<T> {
    pub value: T,
    pub children: Vec<Tree<T>>,
}

/// What a search looks for.
pub trait Wanted<T> {
    /// Whether a value is wanted.
    ghost wants: { Self → T → Bool };

    /// Reports whether a value is wanted.
    fn wants(&self, value: &T) -> bool
        ensures { result ≡ wants self.now value.now };
}

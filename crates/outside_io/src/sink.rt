//! Sinks of bytes.
ghost use Rattle.std.specs.Prelude.{◌≡◌, ◌<◌, ◌≤◌, ℕ, List, length, Option};
ghost use Rattle.outside_io.specs.Outside.{Writes};

/// The result of a write.
#[derive(Clone, Copy, Debug, PartialEq, Eq)]
pub enum Put {
    /// The sink took so many bytes from the front of the argument, at least one.
    Took(usize),
    /// The write failed. The sink took nothing.
    Failed,
}

/// A sink of bytes.
pub trait Sink {
    /// The bytes that it has taken, if contracts see them.
    ghost taken: { Self → Option (List ℕ) };

    /// The count of its failures.
    ghost faults: { Self → ℕ };

    /// Takes bytes from the front of the argument. It fails only if the count of failures rose in this call.
    fn write(&mut self, piece: &[u8]) -> Put
        requires { 0 < length piece.now }
        ensures count { faults self.old ≤ faults self.new }
        ensures does { Writes (taken self.old) (faults self.old) piece.now result (taken self.new)
            (faults self.new) };
}

//! Sources of bytes.
ghost use Rattle.std.specs.Prelude.{◌≡◌, ◌<◌, ◌≤◌, ℕ, List, length, Option};
ghost use Rattle.outside_io.specs.Outside.{Reads};

/// The result of a read.
#[derive(Clone, Copy, Debug, PartialEq, Eq)]
pub enum Fill {
    /// The source moved so many bytes, at least one, to the front of the buffer.
    Got(usize),
    /// No byte is left.
    End,
    /// The read failed. The source moved nothing.
    Failed,
}

/// A source of bytes.
pub trait Source {
    /// The bytes that are left, if contracts see them.
    ghost left: { Self → Option (List ℕ) };

    /// The count of its failures.
    ghost faults: { Self → ℕ };

    /// Moves bytes to the front of the buffer. It reports the end only if no byte is left, and fails only if the count of
    /// failures rose in this call.
    fn read(&mut self, buf: &mut [u8]) -> Fill
        requires { 0 < length buf.old }
        ensures count { faults self.old ≤ faults self.new }
        ensures does { Reads (left self.old) (faults self.old) buf.new result (left self.new)
            (faults self.new) };
}

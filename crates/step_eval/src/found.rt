//! The events of a machine for its hart.
use crate::nested::Nested;

/// An event of a machine for its hart.
#[derive(Debug, Drop)]
pub enum Found<'p> {
    /// A construct. The machine awaits its writes.
    Nest(Nested<'p>),
    /// An `if` that has begun, and whose other side has the sites from `first` to before `end`. The hart skips them. The
    /// machine awaits nothing.
    Pass { first: u16, end: u16 },
}

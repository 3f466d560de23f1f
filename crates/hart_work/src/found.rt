//! The events of a machine for its hart.

/// An event of a machine for its hart. `N` is a construct.
#[derive(Debug, Drop)]
pub enum Found<N> {
    /// A construct. The machine awaits its writes.
    Nest(N),
    /// Sites that no hart shall enter, from `first` to before `end`. The hart skips them. The machine awaits nothing.
    Pass { first: u16, end: u16 },
}

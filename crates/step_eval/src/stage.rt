//! The stage of a machine.

/// The stage of a machine.
#[derive(Clone, Copy, Debug, PartialEq, Eq, Drop)]
pub enum Stage {
    /// The machine goes on, or is done.
    Going,
    /// The machine awaits the writes of a construct.
    Awaiting,
    /// An allocation failed, and the machine is failed for good.
    Failed,
}

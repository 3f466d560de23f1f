//! What a seat knows. These types are ghost: no value of them exists at run time.
use std::collections::LinkedList;

/// The kinds of step that read a counter's word.
pub enum LookKind {
    /// A load.
    Look,
    /// The addition by which a number is drawn.
    Draw,
}

/// A word that was read.
pub struct Look {
    pub row: u16,
    pub kind: LookKind,
    pub found: u64,
}

/// What a seat knows.
pub struct SeatView {
    /// Its parts of the right to know the whole. All seats together have 256, so 255 seats fit.
    pub parts: u64,
    /// The number of members of each counter.
    pub counts: LinkedList<u8>,
    /// The members that it claimed, each with its counter, in order.
    pub claimed: LinkedList<(u16, u8)>,
    /// The counters of which it drew a number past the members.
    pub past: LinkedList<u16>,
    /// One more than the counter in whose word it last saw a free member, until it draws; else 0.
    pub trying: u32,
    /// The words that it read, in order, each with its counter, and whether by a load or an addition. Why: a counter never
    /// falls, so a word that was read is at most the counter at the end. So `NoneLeft` means that each member was claimed.
    pub looks: LinkedList<Look>,
}

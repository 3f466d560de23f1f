//! The deques of one hart.
ghost use Rattle.std.specs.Prelude.{◌≡◌, ◌+◌, ◌*◌, ◌≤◌, vec_len};

use crate::ends::{HomeEnd, StealingEnd};

/// One hart's access to all deques: the home's ends of its own three deques, one for each nesting level, and a stealing end of
/// each deque of each hart.
#[derive(Drop)]
pub struct HartRows {
    pub(crate) hart: u8,
    pub(crate) harts: u8,
    pub(crate) own: Vec<HomeEnd>,
    pub(crate) ends: Vec<StealingEnd>,
    pub(crate) bare: Vec<u64>,
    pub ghost levels: { vec_len own ≡ 3 },
    pub ghost reaches: { vec_len ends ≡ 3 * harts },
    pub ghost counts: { vec_len ends ≤ vec_len bare },
    pub ghost counts_own: { 3 * hart + 3 ≤ vec_len bare },
}

//! A count that harts bring down.

use std::sync::atomic::{AtomicU64, Ordering};

/// A count that harts decrease to 0.
#[derive(Drop)]
pub struct Countdown {
    left: AtomicU64,
}

impl Countdown {
    /// Counts down from so many.
    pub fn new(count: u64) -> Countdown {
        Countdown {
            left: AtomicU64::new(count),
        }
    }

    /// Decreases the count by so many.
    pub fn take(&self, count: u64) {
        self.left.fetch_sub(count, Ordering::SeqCst);
    }

    /// Whether the count is 0.
    pub fn is_down(&self) -> bool {
        self.left.load(Ordering::SeqCst) == 0
    }
}

//! The numbers that harts on threads took.
use std::sync::atomic::{AtomicU64, Ordering};

/// The numbers are those from 0 to before this one.
pub const NUMBERS: u8 = 64;

// The numbers that were taken, as bits, and how many.
#[derive(Drop)]
pub struct Taken {
    numbers: AtomicU64,
    count: AtomicU64,
}

impl Taken {
    /// No number.
    pub fn new() -> Taken {
        Taken {
            numbers: AtomicU64::new(0),
            count: AtomicU64::new(0),
        }
    }

    /// Notes that a number was taken.
    pub fn note(&self, number: u64) {
        self.numbers
            .fetch_or(1 << (number % u64::from(NUMBERS)), Ordering::SeqCst);
        self.count.fetch_add(1, Ordering::SeqCst);
    }

    // Whether each number was taken once.
    pub fn is_each_once(&self) -> bool {
        self.numbers.load(Ordering::SeqCst) == u64::MAX
            && self.count.load(Ordering::SeqCst) == u64::from(NUMBERS)
    }
}

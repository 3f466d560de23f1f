//! A gate that holds each task until so many tasks have come.
use crossbeam_utils::Backoff;
use std::sync::atomic::{AtomicBool, AtomicU64, Ordering};

/// The greatest number of looks of a task.
const LOOKS: u32 = 20_000_000;

/// A gate that holds each task until so many have come, for a bounded number of looks.
#[derive(Drop)]
pub struct Gate {
    wanted: u64,
    came: AtomicU64,
    ran_out: AtomicBool,
}

impl Gate {
    /// Makes a gate for so many tasks.
    pub fn new(wanted: u64) -> Gate {
        Gate {
            wanted,
            came: AtomicU64::new(0),
            ran_out: AtomicBool::new(false),
        }
    }

    /// Comes to the gate, and is held there.
    pub fn pass(&self) {
        self.came.fetch_add(1, Ordering::SeqCst);
        let backoff = Backoff::new();
        for _look in 0..LOOKS {
            if self.came.load(Ordering::SeqCst) >= self.wanted || self.has_run_out() {
                return;
            }
            backoff.snooze();
        }
        self.ran_out.store(true, Ordering::SeqCst);
    }

    /// The number of tasks that have come.
    pub fn count(&self) -> u64 {
        self.came.load(Ordering::SeqCst)
    }

    /// Whether a task was held until its looks ran out.
    pub fn has_run_out(&self) -> bool {
        self.ran_out.load(Ordering::SeqCst)
    }
}

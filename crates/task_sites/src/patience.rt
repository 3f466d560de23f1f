//! How long an idle hart searches before it sleeps.

use std::{hint, thread};

// The pauses of a processor between two looks.
const PAUSES: u32 = 32;

// The first looks, between which the hart keeps its processor.
const QUICK: u32 = 6;

// The looks after which the hart sleeps. To wake a hart costs about as much as so many looks.
const LOOKS: u32 = 24;

/// The looks of an idle hart that found nothing.
#[derive(Drop)]
pub(crate) struct Patience {
    looks: u32,
}

impl Patience {
    /// No look yet.
    pub(crate) fn new() -> Patience {
        Patience { looks: 0 }
    }

    /// The hart has run tasks, so its looks count from 0.
    pub(crate) fn reset(&mut self) {
        self.looks = 0;
    }

    /// Whether it is time to sleep.
    pub(crate) fn is_over(&self) -> bool {
        self.looks >= LOOKS
    }

    /// Waits until the next look.
    pub(crate) fn pause(&mut self) {
        for _ in 0..PAUSES {
            hint::spin_loop();
        }
        if self.looks >= QUICK {
            thread::yield_now();
        }
        self.looks = self.looks.saturating_add(1);
    }
}

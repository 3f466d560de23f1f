//! A hook before each piece of work, for tests.
use std::sync::Wait;
use std::thread::Threads;

/// A hook that a hart calls when it has taken a piece of work, before the piece's first step.
pub trait Gate: Sync {
    /// The hart has taken the piece at this index of this phase of the site. A run doesn't call it for the program's body. It
    /// returns nothing and can't change the output. It may block.
    fn passed<R: Threads + Wait + Sync>(&self, rt: &R, hart: u8, site: u16, phase: u8, place: u8);
}

/// A gate that does nothing.
#[derive(Clone, Copy, Debug)]
pub struct OpenGate;

impl Gate for OpenGate {
    fn passed<R: Threads + Wait + Sync>(
        &self,
        _rt: &R,
        _hart: u8,
        _site: u16,
        _phase: u8,
        _place: u8,
    ) {}
}

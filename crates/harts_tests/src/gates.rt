//! A gate that notes reports of pieces, and that may hold harts.
use crossbeam_utils::Backoff;
use outside_io::Gate;
use std::alloc::{AllocError, Global};
use std::sync::{Mutex, Wait};
use std::thread::Threads;

/// A hart has taken the piece at this index of this phase of the site.
#[derive(Clone, Copy, Debug, PartialEq, Eq)]
pub struct Report {
    pub hart: u8,
    pub site: u16,
    pub phase: u8,
    pub place: u8,
}

/// A member in a phase.
#[derive(Clone, Copy)]
pub struct Spot {
    pub phase: u8,
    pub place: u8,
}

/// The harts that a gate holds, and until when.
#[derive(Clone, Copy)]
pub enum Hold {
    /// None.
    NoHart,
    /// The hart that reports the first piece, until a second piece is reported.
    Meeting,
    /// Each hart, until so many different harts have reported a piece.
    Crowd(usize),
    /// The hart that reports the one piece, until the other is reported.
    Overtaking { held: Spot, awaited: Spot },
    /// Each hart, until two harts have reported a piece of the same phase.
    Phase,
}

/// The greatest number of looks of a gate.
pub const LOOKS: u32 = 400_000_000;

/// The reports, in their order, and whether some report was lost because an allocation failed.
#[derive(Drop)]
struct Notes {
    reports: Vec<Report>,
    is_short: bool,
}

/// A gate that notes each report, and holds harts, each for a bounded number of looks. It notes that the looks of one ran out.
#[derive(Drop)]
pub struct HoldingGate {
    notes: Mutex<Notes>,
    hold: Hold,
    looks: u32,
    ran_out: Mutex<bool>,
}

impl HoldingGate {
    /// A gate that no hart has passed, and that holds a hart for at most so many looks. It has room for a few reports.
    ///
    /// # Errors
    ///
    /// An error if an allocation fails.
    pub fn new(alloc: Global, hold: Hold, looks: u32) -> Result<HoldingGate, AllocError> {
        let reports = Vec::with_capacity(alloc, 16)?;
        Ok(HoldingGate {
            notes: Mutex::new(Notes {
                reports,
                is_short: false,
            }),
            hold,
            looks,
            ran_out: Mutex::new(false),
        })
    }

    // Notes a report. Returns the number of reports.
    fn note<R: Wait>(&self, rt: &R, report: Report) -> usize {
        let mut notes = self.notes.lock(rt);
        if notes.reports.push(report).is_err() {
            notes.is_short = true;
        }
        notes.reports.len()
    }

    // The number of reports.
    fn count<R: Wait>(&self, rt: &R) -> usize {
        self.notes.lock(rt).reports.len()
    }

    /// The number of different harts that reported a piece, of this phase if one is given.
    pub fn harts<R: Wait>(&self, rt: &R, phase: Option<u8>) -> usize {
        let notes = self.notes.lock(rt);
        let mut came = [false; 16];
        for report in notes.reports.iter() {
            if phase.is_some_and(|wanted| wanted != report.phase) {
                continue;
            }
            if let Some(has_come) = came.get_mut(usize::from(report.hart)) {
                *has_come = true;
            }
        }
        came.iter().filter(|has_come| **has_come).count()
    }

    // Whether this piece was reported.
    fn has<R: Wait>(&self, rt: &R, spot: Spot) -> bool {
        let notes = self.notes.lock(rt);
        notes.reports.iter().any(|report| report.phase == spot.phase && report.place == spot.place)
    }

    /// All reports, in their order.
    ///
    /// # Errors
    ///
    /// An error if one was lost, or an allocation fails.
    pub fn reports<R: Wait>(&self, rt: &R, alloc: Global) -> Result<Vec<Report>, AllocError> {
        let notes = self.notes.lock(rt);
        if notes.is_short {
            return Err(AllocError);
        }
        notes.reports.to_vec(alloc)
    }

    /// Whether a hart was held until its looks ran out.
    pub fn has_run_out<R: Wait>(&self, rt: &R) -> bool {
        *self.ran_out.lock(rt)
    }

    // Whether it holds the hart of this report, the last of so many.
    fn holds(&self, report: Report, count: usize) -> bool {
        match self.hold {
            Hold::NoHart => false,
            Hold::Meeting => count == 1,
            Hold::Crowd(_) | Hold::Phase => true,
            Hold::Overtaking { held, awaited: _ } => {
                report.phase == held.phase && report.place == held.place
            }
        }
    }

    // Whether the hart of this report is held no longer.
    fn is_met<R: Wait>(&self, rt: &R, report: Report) -> bool {
        match self.hold {
            Hold::NoHart => true,
            Hold::Meeting => self.count(rt) >= 2,
            Hold::Crowd(harts) => self.harts(rt, None) >= harts,
            Hold::Overtaking { held: _, awaited } => self.has(rt, awaited),
            Hold::Phase => self.harts(rt, Some(report.phase)) >= 2,
        }
    }

    // Looks until the hart is held no longer, or the looks of a hart ran out.
    fn wait<R: Wait>(&self, rt: &R, report: Report) {
        let backoff = Backoff::new();
        for _ in 0..self.looks {
            if self.is_met(rt, report) || self.has_run_out(rt) {
                return;
            }
            backoff.snooze();
        }
        *self.ran_out.lock(rt) = true;
    }
}

impl Gate for HoldingGate {
    fn passed<R: Threads + Wait + Sync>(&self, rt: &R, hart: u8, site: u16, phase: u8, place: u8) {
        let report = Report {
            hart,
            site,
            phase,
            place,
        };
        let count = self.note(rt, report);
        if self.holds(report, count) {
            self.wait(rt, report);
        }
    }
}

//! Runs whose members overtake.
ghost use Rattle.std.specs.Prelude.{◌≤◌};

use crate::gates::{Hold, HoldingGate, LOOKS, Report, Spot};
use crate::meeting::{are_brought, times};
use crate::runs::{NESTED, TURNS, TWO_BRANCHES, output_of};
use disjoint_check::check;
use hart_loop::{Journal, run_piped};
use outside_io::OpenGate;
use pipe_walk::pipe_check;
use sample_programs::parsed;
use std::sync::Wait;
use std::test::Fail;
use std::thread::Threads;

const PIPE: &[&str] = &["pipe", "--harts", "2"];

// In the second phase, each member reads the cell below its own.
const TWO_STEPS: &[u8] =
    b"array a[6]; array b[6]; team i in 0..6 by 3 { a[i] = i + 1; } barrier { b[i] = a[i / 2] * 10; }";

// Whether there is a report of each of three members in both phases, and no other.
fn are_all_six(reports: &[Report]) -> bool {
    let first = (0u8..3).all(|place| times(reports, 1, 0, place) == 1);
    let second = (0u8..3).all(|place| times(reports, 1, 1, place) == 1);
    reports.len() == 6 && first && second
}

// Member 1 in phase 0, and member 0 in phase 1.
const ABOVE: Spot = Spot { phase: 0, place: 1 };

const AHEAD: Spot = Spot { phase: 1, place: 0 };

const WHILE_HELD: Hold = Hold::Overtaking {
    held: ABOVE,
    awaited: AHEAD,
};

const UNTIL_SHARED: Hold = Hold::Overtaking {
    held: AHEAD,
    awaited: ABOVE,
};

#[test]
fn a_member_goes_on_while_one_above_it_is_held(rt: HostRuntime) -> Result<(), Fail> {
    let gate = HoldingGate::new(rt.alloc(), WHILE_HELD, LOOKS)?;
    let output = output_of(&rt, PIPE, TWO_STEPS, &gate)?;
    assert!(rt; !gate.has_run_out(&rt));
    assert!(rt; output.starts_with(b"a = 1 2 3 4 5 6\nb = 10 10 20 20 30 30\n"));
    let reports = gate.reports(&rt, rt.alloc())?;
    assert!(rt; are_all_six(&reports));
    assert!(rt; are_brought(rt.alloc(), &output, &reports)?);
    Ok(())
}

// Whether another hart begins the member above while the first member is held in its second phase. A guest that came before the
// first piece was filled, and left, begins nothing.
fn is_shared<R: AllocGlobal + Threads + Wait + Sync>(rt: &R) -> Result<bool, Fail> {
    let gate = HoldingGate::new(rt.alloc(), UNTIL_SHARED, 1_000_000)?;
    let output = output_of(rt, PIPE, TWO_STEPS, &gate)?;
    let reports = gate.reports(rt, rt.alloc())?;
    let right = output.starts_with(b"a = 1 2 3 4 5 6\nb = 10 10 20 20 30 30\n");
    if !right || !are_all_six(&reports) {
        return Err(Fail::new("another output, or other pieces"));
    }
    Ok(!gate.has_run_out(rt))
}

#[test]
fn a_guest_that_comes_early_stays_for_the_pieces_to_come(rt: HostRuntime) -> Result<(), Fail> {
    let mut shared = 0u32;
    for _ in 0..20 {
        if is_shared(&rt)? {
            shared = shared.saturating_add(1);
        }
    }
    // Why not all: if the home waits for a processor, the guest may give up and leave.
    assert!(rt; shared >= 10);
    Ok(())
}

// Whether a run on so many harts ends with a journal of the right kind, which begins with the site's registration.
fn ends_with_journal<R: AllocGlobal + Threads + Wait + Sync>(
    rt: &R,
    harts: u8,
) -> Result<bool, Fail>
    requires some { 1 ≤ harts }
    requires few { harts ≤ 16 }
{
    let program = parsed(rt.alloc(), TWO_STEPS)?;
    let accepted = check(rt.alloc(), &program, harts)?;
    if let Err(_) = pipe_check(rt.alloc(), &accepted) {
        return Err(Fail::new("a crossing"));
    }
    let outcome = run_piped(rt, rt.alloc(), &accepted, &OpenGate)?;
    let kind = match outcome.journal {
        Journal::Listed(_) => harts == 1,
        Journal::Board(_) => 2 <= harts && harts <= 4,
        Journal::Wide(_) => 4 < harts,
    };
    Ok(kind && outcome.journal.entries().len() >= 2)
}

#[test]
fn the_journal_is_that_of_its_ports(rt: HostRuntime) -> Result<(), Fail> {
    assert!(rt; ends_with_journal(&rt, 1)? && ends_with_journal(&rt, 3)?);
    assert!(rt; ends_with_journal(&rt, 5)? && ends_with_journal(&rt, 16)?);
    Ok(())
}

/// In each of its four phases, a member reads what the two members below it wrote in the phase before.
pub const FOUR_STEPS: &[u8] =
    b"array a[32]; array b[32]; array c[32]; array d[32]; team i in 0..32 by 8 { a[i] = i; } barrier { b[i] = a[i] + a[i / 2]; } barrier { c[i] = b[i] + b[i / 2]; } barrier { d[i] = c[i] + c[i / 2]; }";

// Pools in the phases of a member.
const POOLS: &[u8] =
    b"array a[8]; array b[8]; team i in 0..4 by 4 { par { { a[2 * i] = i; } { a[2 * i + 1] = 9; } } } barrier { par { { b[2 * i] = a[i]; } { b[2 * i + 1] = a[i] * 2; } } }";

/// The programs without a crossing of two pieces.
pub const PIPED: &[&[u8]] = &[TWO_BRANCHES, NESTED, TURNS, TWO_STEPS, FOUR_STEPS, POOLS];

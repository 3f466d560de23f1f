//! Runs of teams of several phases, in each of which two harts meet.
use crate::gates::{Hold, HoldingGate};
use crate::meeting::{are_brought, times};
use crate::runs::{TWO, output_of};
use std::process::Abort;
use std::sync::Wait;
use std::test::Fail;
use std::thread::Threads;

// A team of four members in three phases.
const THREE_PHASES: &[u8] =
    b"array a[4]; array b[4]; array c[4]; team i in 0..4 by 4 { a[i] = i; } barrier { b[i] = a[3 - i]; } barrier { c[i] = b[i] * 2; }";

// Whether both harts report pieces of each phase. In each phase a hart is held until another hart has begun a piece of it.
fn meets_in_each_phase<R: AllocGlobal + Abort + Threads + Wait + Sync>(
    rt: &R,
) -> Result<bool, Fail> {
    let gate = HoldingGate::new(rt.alloc(), Hold::Phase, 1_000_000)?;
    let output = output_of(rt, TWO, THREE_PHASES, &gate)?;
    assert!(rt; output.starts_with(b"a = 0 1 2 3\nb = 3 2 1 0\nc = 6 4 2 0\n"));
    let reports = gate.reports(rt, rt.alloc())?;
    for phase in 0u8..3 {
        assert!(rt; (0u8..4).all(|place| times(&reports, 1, phase, place) == 1));
    }
    assert!(rt; reports.len() == 12 && are_brought(rt.alloc(), &output, &reports)?);
    Ok(!gate.has_run_out(rt))
}

#[test]
fn a_guest_stays_from_phase_to_phase(rt: HostRuntime) -> Result<(), Fail> {
    let mut met = 0u32;
    for _ in 0..20 {
        if meets_in_each_phase(&rt)? {
            met = met.saturating_add(1);
        }
    }
    // Why not all: if the home waits for a processor, the guest may give up and leave.
    assert!(rt; met >= 10);
    Ok(())
}

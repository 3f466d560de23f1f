//! Runs whose gates meet all harts.
use crate::gates::{Hold, HoldingGate, LOOKS, Report};
use crate::runs::{NESTED, SIXTEEN, TWO, TWO_BRANCHES, output_of};
use memchr::memmem;
use std::alloc::{AllocError, Global};
use std::sync::Wait;
use std::test::Fail;

const MET: &[u8] =
    b"a = 1 2 0 0\ntransfers 5\n0 h0 register s1 under s0\n1 h0 request s1 1\n2 h1 enter s1\n3 h1 yield s1\n4 h0 unregister s1\n";

// Whether there are exactly two reports, of both pieces of site 1, by both harts.
fn are_both(reports: &[Report]) -> bool {
    match reports {
        [first, second] => {
            let places = matches!((first.place, second.place), (0, 1) | (1, 0));
            let harts = matches!((first.hart, second.hart), (0, 1) | (1, 0));
            places
                && harts
                && first.site == 1
                && second.site == 1
                && first.phase == 0
                && second.phase == 0
        }
        _ => false,
    }
}

#[test]
fn both_harts_are_inside_one_site(rt: HostRuntime) -> Result<(), Fail> {
    let gate = HoldingGate::new(rt.alloc(), Hold::Meeting, LOOKS)?;
    let output = output_of(&rt, TWO, TWO_BRANCHES, &gate)?;
    assert!(rt; !gate.has_run_out(&rt));
    assert!(rt; output.as_slice() == MET);
    let reports = gate.reports(&rt, rt.alloc())?;
    assert!(rt; are_both(&reports));
    Ok(())
}

// Whether the text has these bytes in a row.
fn has(text: &[u8], bytes: &[u8]) -> bool {
    memmem::find(text, bytes).is_some()
}

/// Whether the journal moves the hart of each report into its site.
///
/// # Errors
///
/// An error if an allocation fails.
pub fn are_brought(alloc: Global, output: &[u8], reports: &[Report]) -> Result<bool, AllocError> {
    for report in reports {
        if !is_brought(alloc, output, report)? {
            return Ok(false);
        }
    }
    Ok(true)
}

// Whether the journal moves the hart into the site.
fn is_brought(alloc: Global, output: &[u8], report: &Report) -> Result<bool, AllocError> {
    let hart = report.hart;
    let site = report.site;
    let registered = format!(in alloc; " h{hart} register s{site} under ")?;
    let entered = format!(in alloc; " h{hart} enter s{site}\n")?;
    Ok(has(output, registered.as_bytes()) || has(output, entered.as_bytes()))
}

/// The number of reports of this piece.
pub fn times(reports: &[Report], site: u16, phase: u8, place: u8) -> usize {
    reports
        .iter()
        .filter(|report| report.site == site && report.phase == phase && report.place == place)
        .count()
}

#[test]
fn each_piece_is_taken_once_by_a_hart_inside_its_site(rt: HostRuntime) -> Result<(), Fail> {
    let gate = HoldingGate::new(rt.alloc(), Hold::NoHart, LOOKS)?;
    let output = output_of(&rt, TWO, NESTED, &gate)?;
    assert!(rt; output.starts_with(b"a = 5 6 0 9\n"));
    let reports = gate.reports(&rt, rt.alloc())?;
    assert!(rt; reports.len() == 4);
    assert!(rt; times(&reports, 1, 0, 0) == 1 && times(&reports, 1, 0, 1) == 1);
    assert!(rt; times(&reports, 2, 0, 0) == 1 && times(&reports, 2, 0, 1) == 1);
    assert!(rt; are_brought(rt.alloc(), &output, &reports)?);
    Ok(())
}

// Sixteen branches that write a cell each.
const SIXTEEN_BRANCHES: &[u8] =
    b"array a[16]; par { { a[0] = 1; } { a[1] = 2; } { a[2] = 3; } { a[3] = 4; } { a[4] = 5; } { a[5] = 6; } { a[6] = 7; } { a[7] = 8; } { a[8] = 9; } { a[9] = 10; } { a[10] = 11; } { a[11] = 12; } { a[12] = 13; } { a[13] = 14; } { a[14] = 15; } { a[15] = 16; } }";

// Each hart is held at its first piece until all have one, so each takes exactly one.
#[test]
fn sixteen_harts_are_inside_one_site(rt: HostRuntime) -> Result<(), Fail> {
    let gate = HoldingGate::new(rt.alloc(), Hold::Crowd(16), LOOKS)?;
    let output = output_of(&rt, SIXTEEN, SIXTEEN_BRANCHES, &gate)?;
    assert!(rt; !gate.has_run_out(&rt));
    assert!(rt; output.starts_with(b"a = 1 2 3 4 5 6 7 8 9 10 11 12 13 14 15 16\n"));
    let reports = gate.reports(&rt, rt.alloc())?;
    assert!(rt; reports.len() == 16 && gate.harts(&rt, None) == 16);
    assert!(rt; are_brought(rt.alloc(), &output, &reports)?);
    Ok(())
}

//! For each site, whether it is entered.

use crate::programs::{are_sized, parsed};
use disjoint_check::check;
use entered_sites::{entered, entered_by};
use site_counts::sites_in_block;
use std::alloc::Global;
use std::test::Fail;

// Whether a program, accepted or not, enters these of its sites.
fn enters(alloc: Global, text: &str, expected: &[bool]) -> Result<bool, Fail> {
    let program = parsed(alloc, text)?;
    if !are_sized(&program.arrays) {
        return Err(Fail::new("arrays of no size that a program may have"));
    }
    let Ok(sites) = u16::try_from(sites_in_block(&program.body)) else {
        return Err(Fail::new("more sites than are told of"));
    };
    let recorded = entered(alloc, &program, sites)?;
    Ok(recorded.as_slice() == expected)
}

// Programs, and for each of their sites whether it is entered.
const ENTERS: [(&str, &[bool]); 12] = [
    // A construct is entered if its side of an `if` runs.
    ("array a[1]; if 1 { par { { a[0] = 1; } } }", &[true]),
    ("array a[1]; if 0 { par { { a[0] = 1; } } }", &[false]),
    // The sites inside a side are passed over with the side.
    (
        "array a[2];
        if a[0] { par { { par { { } } } } } else { par { { a[1] = 4; } } }",
        &[false, false, true],
    ),
    (
        "array a[2]; a[0] = -1;
        if a[0] { par { { par { { } } } } } else { par { { a[1] = 4; } } }",
        &[true, true, false],
    ),
    // A loop takes a side in each turn.
    (
        "for i in 0..4 { if i % 2 { par { { } } } else { team j in 0..2 by 2 { } } }",
        &[false, true, true, false, false, true, true, false],
    ),
    // Each turn writes the cell that the next turn's condition reads.
    (
        "array a[1]; for i in 0..3 {
        if a[0] { par { { a[0] = 0; } } } else { par { { } { a[0] = 1; } } } }",
        &[false, true, true, false, false, true],
    ),
    // The then side has four sites, the first three of them inside a choice; the else side has one.
    (
        "array a[2]; a[0] = 1;
        if a[0] {
            if a[1] { par { { } } } else { par { { } } par { { } } }
            par { { } }
        } else {
            if a[0] { par { { } } }
        }",
        &[false, true, true, true, false],
    ),
    // Branches choose.
    (
        "array a[2]; par {
        { a[0] = 1; if a[0] { par { { } } } else { par { { } } } }
        { if a[1] { par { { } } } else { } } }",
        &[true, true, false, false],
    ),
    // Members choose by what an earlier phase wrote.
    (
        "array a[4]; team i in 0..4 by 2
        { a[i] = i % 2; if i == 3 { par { { } } } }
        barrier { if a[i] { par { { } } } }
        barrier { if a[3 - i] == 0 { par { { } } } }",
        &[
            true, false, false, false, true, false, true, false, true, false, true, false, true,
        ],
    ),
    // Only what runs writes.
    (
        "array a[1]; if 0 { a[0] = 1; par { { } } } if a[0] { par { { } } }",
        &[false, false],
    ),
    (
        "array a[1]; for i in 0..5 { a[0] = a[0] + i; } if a[0] == 10 { par { { } } }",
        &[true],
    ),
    ("array a[1]; a[0] = 1; for i in 3..3 { par { { } } }", &[]),
];

#[test]
fn the_sites_that_run_are_entered(rt: HostRuntime) -> Result<(), Fail> {
    for (text, expected) in ENTERS {
        assert!(rt; enters(rt.alloc(), text, expected)?, "{text}");
    }
    Ok(())
}

#[test]
fn an_accepted_program_records_its_sites(rt: HostRuntime) -> Result<(), Fail> {
    let alloc = rt.alloc();
    let text = "array a[4]; par { { team i in 0..2 by 2 { a[i] = i; } } { a[3] = 9; } }
        if a[0] { par { { } } } par { { } }";
    let program = parsed(alloc, text)?;
    let accepted = check(alloc, &program, 2)?;
    let recorded = entered_by(alloc, &accepted)?;
    assert!(rt; recorded.as_slice() == [true, true, false, true].as_slice());
    Ok(())
}

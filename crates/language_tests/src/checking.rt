//! Programs with known results of the check.

use crate::programs::parsed;
use array_lang::parse;
use disjoint_check::{Accepted, CheckFault, Limit, check};
use std::alloc::Global;
use std::test::Fail;

// The first condition that the program of a text fails, if it fails one.
fn refusal(alloc: Global, text: &str) -> Result<Option<CheckFault>, Fail> {
    let program = parsed(alloc, text)?;
    match check(alloc, &program, 1) {
        Ok(_) => Ok(None),
        Err(fault) => Ok(Some(fault)),
    }
}

// Programs, and the first condition that each fails, if it fails one.
const REFUSALS: [(&str, Option<CheckFault>); 23] = [
    // Names are reported by their lines.
    ("a[0] = 1;", Some(CheckFault::UnknownName { line: 1 })),
    (
        "array a[4];\nfor i in 0..4 {\n  for a in 0..1 { }\n}",
        Some(CheckFault::DuplicateName { line: 3 }),
    ),
    (
        "array a[4];\nfor i in 0..4 { a[i] = i; }\nfor i in 0..4 { a[i] = i; }",
        None,
    ),
    // Constructs stand under an `if`, and three deep.
    ("array a[1]; if 1 { par { { a[0] = 1; } } }", None),
    (
        "par { { par { { par { { par { { } } } } } } } }",
        Some(CheckFault::TooDeep { level: 4 }),
    ),
    // The size is reported.
    ("for k in 0..4095 { par { { } } }", None),
    (
        "for k in 0..4096 { par { { } } }",
        Some(CheckFault::TooManySites { sites: 4096 }),
    ),
    (
        "for k in 0..257 { team i in 0..0 by 64 { } }",
        Some(CheckFault::TooManyPieces { pieces: 16448 }),
    ),
    (
        "for k in 0..1048576 { }",
        Some(CheckFault::TooMuchWork { units: 1_048_577 }),
    ),
    ("for k in 0..1048575 { }", None),
    // Limits are reported in their order.
    (
        "array a[4000];\narray b[4097];",
        Some(CheckFault::BadRange {
            line: 2,
            what: Limit::Length,
            found: 4097,
        }),
    ),
    (
        "array a[4000];\narray b[97];",
        Some(CheckFault::BadRange {
            line: 2,
            what: Limit::Cells,
            found: 4097,
        }),
    ),
    (
        "team i in 0..-1 by 0 { }",
        Some(CheckFault::BadRange {
            line: 1,
            what: Limit::Bounds,
            found: -1,
        }),
    ),
    (
        "team i in 0..1 by 65 { }",
        Some(CheckFault::BadRange {
            line: 1,
            what: Limit::Members,
            found: 65,
        }),
    ),
    // Indices stay inside, on each side of an `if`.
    (
        "array a[4]; a[4] = 1;",
        Some(CheckFault::OutOfRange {
            line: 1,
            index: 4,
            length: 4,
        }),
    ),
    (
        "array a[4]; if 0 { a[4] = 1; }",
        Some(CheckFault::OutOfRange {
            line: 1,
            index: 4,
            length: 4,
        }),
    ),
    // So does the index of a loop that has turns.
    (
        "array a[4];\nfor i in 0..8 {\na[4] = a[4] + 1; }",
        Some(CheckFault::OutOfRange {
            line: 3,
            index: 4,
            length: 4,
        }),
    ),
    (
        "array a[4];\nfor i in 0..8 { a[0 - 1] = i; }",
        Some(CheckFault::OutOfRange {
            line: 2,
            index: -1,
            length: 4,
        }),
    ),
    ("array a[4]; for i in 0..0 { a[4] = a[4] + 1; }", None),
    // Branches may share reads alone.
    (
        "array a[2]; par { { a[0] = 1; } { a[0] = 2; } }",
        Some(CheckFault::Overlap { line: 1, cell: 0 }),
    ),
    (
        "array a[2]; array b[2]; par { { b[0] = a[0]; } { b[1] = a[0]; } }",
        None,
    ),
    ("array a[2]; team i in 0..2 by 64 { a[i] = 3; }", None),
    ("array a[2]; team i in 0..0 by 1 { a[i] = 3; }", None),
];

#[test]
fn the_first_condition_that_fails_is_reported(rt: HostRuntime) -> Result<(), Fail> {
    for (text, fault) in REFUSALS {
        assert!(rt; refusal(rt.alloc(), text)? == fault, "{text}");
    }
    Ok(())
}

#[test]
fn accepted_programs_are_planned(rt: HostRuntime) -> Result<(), Fail> {
    let alloc = rt.alloc();
    let nested = b"array a[4]; par { { team i in 0..2 by 64 { a[i] = i + 5; } } { a[3] = 9; } }";
    let program = parse(alloc, nested.as_slice())?;
    let accepted = check(alloc, &program, 3)?;
    assert!(rt; is_planned(&accepted));
    assert!(rt; accepted.program() == &program);
    Ok(())
}

// Whether a program on three harts has 66 pieces and two sites, a team of 64 in a `par` of two.
fn is_planned(accepted: &Accepted<'_>) -> bool {
    accepted.pieces() == 66
        && has_sites(accepted)
        && has_shape(accepted, 1, 2, 0)
        && has_shape(accepted, 2, 64, 1)
}

// Whether a plan for three harts has two sites, the second inside the first.
fn has_sites(accepted: &Accepted<'_>) -> bool {
    let plan = accepted.plan();
    plan.harts() == 3 && plan.sites() == 2 && plan.parent(1) == 0 && plan.parent(2) == 1
}

// Whether there is such a site, with so many members and phases.
fn has_shape(accepted: &Accepted<'_>, site: u16, members: u8, phases: u8) -> bool {
    if site == 0 || site > accepted.plan().sites() {
        return false;
    }
    accepted.shape(site) == (members, phases)
}

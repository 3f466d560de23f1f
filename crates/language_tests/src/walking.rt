//! The results of the walk through programs.

use crate::programs::{are_sized, parsed};
use array_tree::Program;
use site_walk::{WalkFault, walk_program};
use std::alloc::Global;
use std::test::Fail;

// The result of the walk through the program of a text.
fn found(alloc: Global, text: &str) -> Result<Option<WalkFault>, Fail> {
    let program = parsed(alloc, text)?;
    found_in(alloc, &program)
}

// The result of the walk through a program.
fn found_in(alloc: Global, program: &Program) -> Result<Option<WalkFault>, Fail> {
    if !are_sized(&program.arrays) {
        return Err(Fail::new("arrays of no size that a program may have"));
    }
    Ok(walk_program(alloc, program).err())
}

// Programs and the first fault of the walk.
const WALKS: [(&str, Option<WalkFault>); 5] = [
    // An index outside its array comes before overlaps.
    (
        "array a[4]; array b[4];
        par { { b[0] = 1; } { b[0] = 2; } }
        if 0 { a[4] = 1; }",
        Some(WalkFault::OutOfRange {
            line: 3,
            index: 4,
            length: 4,
        }),
    ),
    // An index that is read is inside too.
    (
        "array a[4]; array b[4];
        a[3] = 1;
        a[0] = b[4];",
        Some(WalkFault::OutOfRange {
            line: 3,
            index: 4,
            length: 4,
        }),
    ),
    // Branches may share what none writes.
    (
        "array a[4]; array b[4];
        par { { b[0] = a[0]; } { b[1] = a[0]; } }
        par { { b[2] = 1; } { b[2] = 2; } }",
        Some(WalkFault::Overlap { line: 3, cell: 6 }),
    ),
    // A dynamic index touches the whole array.
    (
        "array a[4]; array b[4];
        par { { a[1] = b[a[0]]; } { a[2] = b[3]; } }
        par { { a[1] = b[a[0]]; } { b[2] = 1; } }",
        Some(WalkFault::Overlap { line: 3, cell: 6 }),
    ),
    // Members have their own iterations.
    (
        "array a[4]; array b[4];
        team i in 0..4 by 2 { a[i] = 1; }
        team i in 0..4 by 2 { b[1] = i; }",
        Some(WalkFault::Overlap { line: 3, cell: 5 }),
    ),
];

// The same for texts that are analysed first, since their loops have enough turns.
const ANALYSED: [(&str, Option<WalkFault>); 6] = [
    // The first index outside is noted.
    (
        "array a[100];
        for i in 0..1000 { a[i / 10] = 0; }
        for i in 0..1001 { a[i / 10] = 1; }
        for i in 0..1000 { a[i] = 2; }",
        Some(WalkFault::OutOfRange {
            line: 3,
            index: 100,
            length: 100,
        }),
    ),
    // What the text leaves open may be right.
    (
        "array a[2000];
        for i in 0..1000 { a[i * i - i * i] = i; }
        par { { for i in 0..1000 { a[2 * i] = 1; } } { for i in 0..1000 { a[2 * i + 1] = 1; } } }
        team i in 0..1000 by 4 { a[i] = a[i] + i; } barrier { a[999 - i] = 0; }",
        None,
    ),
    // The first phase that overlaps is noted.
    (
        "array a[100]; array b[100];
        team i in 0..1000 by 4 { a[i / 10] = i; } barrier { b[i % 99 + 1] = a[0]; }
        par { { for i in 0..100 { a[i] = 1; } } { for i in 0..100 { a[i] = 2; } } }",
        Some(WalkFault::Overlap { line: 2, cell: 101 }),
    ),
    // Sites inside settled pieces are looked at.
    (
        "array a[100];
        for k in 0..1000 { for i in 0..10 { a[i] = k; } }
        par { { for k in 0..1000 { par { { a[7] = k; } { a[8] = a[7]; } } } } { } }",
        Some(WalkFault::Overlap { line: 3, cell: 7 }),
    ),
    // A loop that is settled hides no later overlap.
    (
        "array a[8];
        for k in 0..9000 { par { { a[0] = k; } { a[1] = k; } { a[2] = k; } { a[3] = k; } } }
        for k in 0..9000 { par { { a[k / 9000] = k; } { a[k / 8999] = k; } } }",
        Some(WalkFault::Overlap { line: 3, cell: 0 }),
    ),
    // Turns that are apart one by one are right.
    (
        "array a[1001];
        for k in 0..1000 { par { { a[k] = k; } { a[k + 1] = k; } } }
        for k in 0..1000 { team i in 0..2 by 2 { a[k + i] = i; } barrier { a[1000 - i] = a[k]; } }",
        Some(WalkFault::Overlap { line: 3, cell: 999 }),
    ),
];

#[test]
fn the_walk_reports_the_first_fault(rt: HostRuntime) -> Result<(), Fail> {
    for (text, fault) in WALKS {
        assert!(rt; found(rt.alloc(), text)? == fault, "{text}");
    }
    for (text, fault) in ANALYSED {
        assert!(rt; found(rt.alloc(), text)? == fault, "{text}");
    }
    Ok(())
}

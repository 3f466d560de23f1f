//! The programs, and the writes of their parts: each cell with its number.

use array_lang::parse;
use array_tree::Program;
use disjoint_check::{Accepted, check};
use std::alloc::Global;
use std::test::Fail;

/// A `par` of two branches.
pub const TWO_BRANCHES: &[u8] = b"array a[4]; par { { a[0] = 1; } { a[1] = 2; } }";

/// The writes of both branches.
pub const BOTH_BRANCHES: [(u16, i64); 2] = [(0, 1), (1, 2)];

/// A `team` of three members with two phases.
pub const TWO_PHASES: &[u8] = b"array a[6]; array b[6];
    team i in 0..6 by 3 { a[i] = i + 1; } barrier { b[i] = a[5 - i]; }";

/// The writes of its first phase.
pub const FIRST_PHASE: [(u16, i64); 6] = [(0, 1), (1, 2), (2, 3), (3, 4), (4, 5), (5, 6)];

/// The writes of its second phase.
pub const SECOND_PHASE: [(u16, i64); 6] = [(6, 6), (7, 5), (8, 4), (9, 3), (10, 2), (11, 1)];

/// The writes of both phases.
pub const BOTH_PHASES: [(u16, i64); 12] = [
    (0, 1),
    (1, 2),
    (2, 3),
    (3, 4),
    (4, 5),
    (5, 6),
    (6, 6),
    (7, 5),
    (8, 4),
    (9, 3),
    (10, 2),
    (11, 1),
];

/// The program of a text of at most 65,536 bytes.
///
/// # Errors
///
/// A failure of the test if the text is longer or spells no program, or an allocation fails.
pub fn parsed(alloc: Global, text: &[u8]) -> Result<Program, Fail> {
    if text.len() > 65_536 {
        return Err(Fail::new("a longer text than any program's"));
    }
    Ok(parse(alloc, text)?)
}

/// The program as an accepted one, on one hart.
///
/// # Errors
///
/// A failure of the test if the program isn't accepted, or an allocation fails.
pub fn accepted<'p>(alloc: Global, program: &'p Program) -> Result<Accepted<'p>, Fail> {
    Ok(check(alloc, program, 1)?)
}

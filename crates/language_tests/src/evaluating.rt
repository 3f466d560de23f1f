//! The arrays with which programs end.

use crate::programs::{are_sized, parsed};
use array_eval::{run_one, write_arrays};
use array_tree::Program;
use std::alloc::Global;
use std::test::Fail;

// Whether a program, accepted or not, ends with these array lines.
fn ends_with(alloc: Global, text: &str, expected: &str) -> Result<bool, Fail> {
    let program = parsed(alloc, text)?;
    writes(alloc, &program, expected.as_bytes())
}

/// Whether the run of a program ends with these array lines.
pub(crate) fn writes(alloc: Global, program: &Program, expected: &[u8]) -> Result<bool, Fail> {
    if !are_sized(&program.arrays) {
        return Err(Fail::new("arrays of no size that a program may have"));
    }
    let store = run_one(alloc, program)?;
    let lines = write_arrays(alloc, program, &store)?;
    Ok(lines.as_slice() == expected)
}

// Programs, and the array lines with which they end.
const ENDS: [(&str, &str); 10] = [
    // Branches run from left to right.
    (
        "array a[4]; array b[1]; par { { a[0] = 1; } { a[1] = a[0]; } }",
        "a = 1 1 0 0\nb = 0\n",
    ),
    // A phase ends before the next begins.
    (
        "array a[6]; array b[6];
        team i in 0..6 by 3 { a[i] = i + 1; } barrier { b[i] = a[5 - i]; }",
        "a = 1 2 3 4 5 6\nb = 6 5 4 3 2 1\n",
    ),
    // A dynamic index is reduced.
    (
        "array a[4]; array b[1]; b[0] = -1; a[b[0]] = 5;",
        "a = 0 0 0 5\nb = -1\n",
    ),
    // Numbers wrap, and are divided by zero.
    (
        "array a[3]; a[7 / 0] = 9223372036854775807 + 1; a[2] = -7 % 3;",
        "a = -9223372036854775808 0 -1\n",
    ),
    // The names of two arrays have the same digest.
    (
        "array eO0J8aA2qbhs[2]; array d92BRY10am9L[3];
        d92BRY10am9L[2] = 7; eO0J8aA2qbhs[1] = d92BRY10am9L[2] + 1;",
        "eO0J8aA2qbhs = 0 8\nd92BRY10am9L = 0 0 7\n",
    ),
    // The digests of `a`, `gb` and `jy` are equal modulo 256.
    (
        "array b[1]; array a[2]; array gb[2]; array c[1]; array jy[2];
        a[1] = 1; gb[0] = 2; jy[1] = a[1] + gb[0]; b[0] = jy[1]; c[0] = gb[0];",
        "b = 3\na = 0 1\ngb = 2 0\nc = 2\njy = 0 3\n",
    ),
    // A loop writes one cell in each turn.
    (
        "array a[2]; array s[1];
        for i in 0..10 { s[0] = s[0] + i; } for i in 0..10 { a[1] = i * i; }",
        "a = 0 81\ns = 45\n",
    ),
    // A turn adds the values that the cells have in that turn.
    (
        "array x[2]; array y[4]; x[1] = 1;
        for i in 0..5 { x[1] = x[1] + x[1]; } for i in 0..5 { x[0] = x[0] + x[1]; }
        for i in 0..8 { y[y[0]] = y[y[0]] + 1; } for i in 0..4 { y[2] = y[1] - y[2]; }",
        "x = 160 32\ny = 1 7 0 0\n",
    ),
    // An inner loop writes the cell of the outer turn.
    (
        "array a[4]; array c[3];
        for i in 0..3 { for j in 0..4 { c[i] = c[i] + j; } }
        for i in 0..5 { for j in 0..4 { a[j] = a[j] + i * j; } }",
        "a = 0 10 20 30\nc = 6 6 6\n",
    ),
    // No check refuses these programs here: a write after the last cell does nothing.
    (
        "array a[2];
        for i in 0..8 { a[5] = a[5] + 1; } for i in 0..8 { a[2] = i; } for i in 3..3 { a[0] = 7; }",
        "a = 0 0\n",
    ),
];

#[test]
fn programs_end_with_these_arrays(rt: HostRuntime) -> Result<(), Fail> {
    for (text, expected) in ENDS {
        assert!(rt; ends_with(rt.alloc(), text, expected)?, "{text}");
    }
    Ok(())
}

// Programs with loops of 11, 12 and more turns, and the array lines with which they end. Names are resolved from 12 turns on.
const LOOPS: [(&str, &str); 9] = [
    // The last turn divides by zero, and reduces a negative index.
    (
        "array a[3]; array n[11];
        for i in 0..11 { n[i] = 100 / (10 - i); a[n[i] - 50] = i; }",
        "a = 8 10 9\nn = 10 11 12 14 16 20 25 33 50 100 0\n",
    ),
    (
        "array a[3]; array n[12];
        for i in 0..12 { n[i] = 100 / (11 - i); a[n[i] - 50] = i; }",
        "a = 9 11 10\nn = 9 10 11 12 14 16 20 25 33 50 100 0\n",
    ),
    // The last turn writes after the last cell.
    (
        "array a[10]; for i in 0..11 { a[i] = i * i; }",
        "a = 0 1 4 9 16 25 36 49 64 81\n",
    ),
    (
        "array a[11]; for i in 0..12 { a[i] = i * i; }",
        "a = 0 1 4 9 16 25 36 49 64 81 100\n",
    ),
    // The first turn has a negative index, and the last turn reads after the last cell.
    (
        "array a[12]; array b[13];
        for i in 0..12 { a[i - 1] = i; } for i in 0..13 { b[i] = 5 - b[i + 1]; }",
        "a = 1 2 3 4 5 6 7 8 9 10 11 0\nb = 5 5 5 5 5 5 5 5 5 5 5 5 5\n",
    ),
    // The last turn wraps.
    (
        "array a[13];
        for i in 0..13 { a[i] = (9223372036854775796 + i) / 4611686018427387904; }",
        "a = 1 1 1 1 1 1 1 1 1 1 1 1 -2\n",
    ),
    // A turn uses the variable of an outer loop, numbers, and the minus sign.
    (
        "array a[12];
        for j in 1..3 { for i in 0..12 { a[11 - i] = -(j * i) + 2 * 3; } }",
        "a = -16 -14 -12 -10 -8 -6 -4 -2 0 2 4 6\n",
    ),
    // The inner of two loops with one variable, and an array with the name of a variable.
    (
        "array i[12]; for i in 0..2 { for i in 0..12 { i[i] = i[i] + i; } }",
        "i = 0 2 4 6 8 10 12 14 16 18 20 22\n",
    ),
    // Each turn writes one cell, and reads others.
    (
        "array a[16]; array s[3]; s[1] = 1; s[2] = 3;
        for i in 0..16 { a[i] = i - s[2]; s[a[i]] = s[a[i]] + 1; }
        for i in 0..16 { s[0] = s[0] + a[i] * a[i]; }
        for i in 0..40 { s[1] = s[1] + s[1]; }",
        "a = -3 -2 -1 -1 -1 -1 -1 -1 -1 -1 -1 -1 -1 -1 -1 -1\ns = 28 2199023255552 17\n",
    ),
];

#[test]
fn long_loops_end_with_these_arrays(rt: HostRuntime) -> Result<(), Fail> {
    for (text, expected) in LOOPS {
        assert!(rt; ends_with(rt.alloc(), text, expected)?, "{text}");
    }
    Ok(())
}

//! The check of crossings: programs, each with the line and the cell of its first crossing, if it has one.
use pipe_walk::{PipeFault, pipe_check, uncrossed};
use sample_programs::{TWO_BRANCHES, TWO_PHASES, accepted, first_construct, parsed};
use std::alloc::Global;
use std::test::Fail;

// A `team` of three members with two phases, without a crossing of two pieces.
const TWO_STEPS: &[u8] = b"array a[6]; array b[6];
    team i in 0..6 by 3 { a[i] = i + 1; } barrier { b[i] = a[i / 2] * 10; }";

// A wavefront: each member goes on from the cell that the member below it wrote.
const WAVEFRONT: &[u8] = b"array a[4]; array b[4]; array c[4];
    team i in 1..4 by 3 { a[i] = i; } barrier { b[i] = a[i - 1] + a[i]; } barrier { c[i] = b[i - 1] * 2 + b[i]; }";

// A stencil whose three members have three, two and three of eight cells, and the last of its phases reads a cell above.
const CROSSED_LAST: &[u8] = b"array a[8]; array b[8];
    for k in 0..2 {
    team i in 0..8 by 3 { a[i] = i; } barrier { b[i] = a[i]; } barrier { b[i] = a[(i + 1) % 8]; }
    }";

// A stencil whose members are uneven, and read the cells below their own.
const UNEVEN: &[u8] = b"array a[8]; array b[8];
    team i in 1..8 by 3 { a[i] = i; } barrier { b[i] = a[i - 1] + a[i]; }";

// A wavefront of eight members with much to do, so that its text is analysed: they touch stretches that are apart.
const LONG_WAVE: &[u8] = b"array a[9]; array b[9]; array c[9];
    team i in 1..9 by 8 { for j in 0..90 { a[i] = a[i] + j; } }
    barrier { b[i] = a[i - 1]; if i < 5 { for j in 0..90 { b[i] = b[i] * 3 + j; } } }
    barrier { c[i] = a[i] + b[i - 1]; for j in 0..90 { c[i] = c[i] - j; } }";

// A stencil with many turns, whose three members are uneven and read the cells below their own.
const LONG_UNEVEN: &[u8] = b"array a[200]; array b[200];
    team i in 1..200 by 3 { a[i] = i; } barrier { b[i] = a[i - 1] + a[i]; } barrier { b[i] = b[i] + a[0]; }";

// Two members, one with the even cells and the other with the odd ones, whose stretches aren't apart.
const INTERLEAVED: &[u8] = b"array a[200];
    team i in 0..200 by 2 { a[i % 100 * 2 + i / 100] = i; } barrier { a[i % 100 * 2 + i / 100] = i + 1; }";

// Members whose indexes have no bounds that the text shows.
const UNTOLD: &[u8] = b"array a[200]; array b[200];
    team i in 0..200 by 4 { a[i] = i; } barrier { b[i % (i - i + 200)] = a[i]; }";

// Four members of fifty cells each. They read a cell above in the last phase, and only the last of them a cell below.
const LONG_CROSSED_LAST: &[u8] = b"array a[200]; array b[200];
    team i in 0..200 by 4 { a[i] = i; } barrier { b[i] = a[i]; } barrier { b[i] = a[(i + 1) % 200]; }";

// Each construct touches cells that the ones before it touched, by other members, and only a dynamic index reads `r`.
const AFTER_ONE_ANOTHER: &[u8] = b"array a[4]; array b[4]; array r[4];
    for k in 0..2 {
    team i in 0..4 by 4 { a[i] = i; } barrier { b[i] = a[i]; }
    team i in 0..4 by 4 { a[3 - i] = i; } barrier { b[3 - i] = a[3 - i]; }
    team i in 0..4 by 4 { b[i] = r[b[i]]; } barrier { a[i] = r[b[i]]; }
    }
    team i in 0..4 by 4 { a[3 - i] = i; } barrier { b[i] = i; } barrier { a[3 - i] = a[3 - i]; }
    team i in 0..4 by 4 { b[i] = i; } barrier { b[3 - i] = i; }";

// A program, and the line and cell of its first crossing.
type Row = (&'static [u8], Option<(u32, u16)>);

const PROGRAMS: &[Row] = &[
    // Members may read what lies below them.
    (TWO_STEPS, None),
    (UNEVEN, None),
    (WAVEFRONT, None),
    // Stretches that are apart are clear.
    (LONG_WAVE, None),
    (LONG_UNEVEN, None),
    // Where stretches meet, the cells decide.
    (INTERLEAVED, None),
    (UNTOLD, None),
    (LONG_CROSSED_LAST, Some((2, 50))),
    // A member that reads what a higher one wrote crosses it.
    (TWO_PHASES, Some((2, 4))),
    // One crossing in the last phase is found.
    (CROSSED_LAST, Some((3, 2))),
    // Constructs are checked each by itself.
    (AFTER_ONE_ANOTHER, Some((8, 6))),
];

// The line and cell of a program's first crossing, if it has one.
fn crossing(alloc: Global, text: &[u8]) -> Result<Option<(u32, u16)>, Fail> {
    let program = parsed(alloc, text)?;
    let accepted = accepted(alloc, &program)?;
    match pipe_check(alloc, &accepted) {
        Ok(()) => Ok(None),
        Err(PipeFault::Crossing { line, cell }) => Ok(Some((line, cell))),
        Err(PipeFault::Memory) => Err(Fail::new("out of memory")),
    }
}

#[test]
fn crossings_are_found(rt: HostRuntime) -> Result<(), Fail> {
    for (row, (text, expected)) in PROGRAMS.iter().enumerate() {
        let found = crossing(rt.alloc(), text)?;
        assert_eq!(rt; found, *expected, "in row {row}");
    }
    Ok(())
}

// A program, and whether the construct that it begins with has no crossing.
const CONSTRUCTS: &[(&[u8], bool)] = &[
    (LONG_WAVE, true),
    (INTERLEAVED, true),
    (LONG_CROSSED_LAST, false),
    (TWO_STEPS, true),
    (TWO_PHASES, false),
    (TWO_BRANCHES, true),
];

// Whether the construct that a program begins with has no crossing.
fn is_clear(alloc: Global, text: &[u8]) -> Result<bool, Fail> {
    let program = parsed(alloc, text)?;
    Ok(uncrossed(alloc, &first_construct(alloc, &program)?)?)
}

#[test]
fn a_construct_finds_whether_its_pieces_cross(rt: HostRuntime) -> Result<(), Fail> {
    for (row, (text, expected)) in CONSTRUCTS.iter().enumerate() {
        let clear = is_clear(rt.alloc(), text)?;
        assert_eq!(rt; clear, *expected, "in row {row}");
    }
    Ok(())
}

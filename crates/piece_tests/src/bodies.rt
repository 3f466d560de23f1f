//! Complete programs as jobs.
ghost use Rattle.std.specs.Prelude.{◌≡◌};

use crate::driving::{driven, holds};
use array_jobs::{Job, Piece, body_job, piece_of, sites_in};
use disjoint_check::{Accepted, check};
use sample_programs::parsed;
use std::alloc::{AllocError, Global};
use std::test::Fail;

// Whether the machine of a program's body writes this.
fn machine_writes(
    alloc: Global,
    accepted: &Accepted,
    expected: &[(u16, i64)],
) -> Result<bool, Fail> {
    let piece = driven(alloc, body_job(alloc, accepted.program())?)?;
    Ok(piece.written.pairs() == expected)
}

// Whether the piece of a program's body writes this.
fn piece_writes(
    alloc: Global,
    accepted: &Accepted,
    expected: &[(u16, i64)],
) -> Result<bool, AllocError> {
    let piece = piece_of(alloc, body_job(alloc, accepted.program())?)?;
    Ok(piece.written.pairs() == expected)
}

// Whether the machine of a program's body writes this, and its piece the same.
fn both_write(alloc: Global, text: &[u8], expected: &[(u16, i64)]) -> Result<bool, Fail> {
    let program = parsed(alloc, text)?;
    let accepted = check(alloc, &program, 1)?;
    let by_machine = machine_writes(alloc, &accepted, expected)?;
    let by_piece = piece_writes(alloc, &accepted, expected)?;
    Ok(by_machine && by_piece)
}

// What each program shows, its text, and the writes of its body.
const BODIES: &[(&str, &[u8], &[(u16, i64)])] = &[
    (
        "a team inside a branch",
        b"array low[4]; array high[4];
        par {
          { team i in 0..4 by 2 { low[i] = i + 1; } }
          { high[0] = 10;
            par { { high[1] = high[0] * 2; } { high[2] = high[0] * 3; } }
            high[3] = high[1] + high[2]; }
        }",
        &[
            (0, 1),
            (1, 2),
            (2, 3),
            (3, 4),
            (4, 10),
            (5, 20),
            (6, 30),
            (7, 50),
        ],
    ),
    (
        "a phase reads what the one before wrote",
        b"array a[4]; array b[4];
        team i in 0..4 by 2 { a[i] = i * i; } barrier { b[i] = a[3 - i]; }",
        &[
            (0, 0),
            (1, 1),
            (2, 4),
            (3, 9),
            (4, 9),
            (5, 4),
            (6, 1),
            (7, 0),
        ],
    ),
    (
        "a construct in each turn of a loop",
        b"array even[1]; array odd[1];
        for turn in 0..3 {
          par { { even[0] = even[0] + 2 * turn; } { odd[0] = odd[0] + 2 * turn + 1; } }
        }",
        &[(0, 6), (1, 9)],
    ),
    (
        "a loop in a choice",
        b"array a[4];
        if a[3] == 0 { for i in 1..3 { a[i] = a[i - 1] + i; } } else { a[0] = 9; }",
        &[(1, 1), (2, 3)],
    ),
];

#[test]
fn a_body_writes_as_its_text_says(rt: HostRuntime) -> Result<(), Fail> {
    for (shows, text, expected) in BODIES {
        assert!(rt; both_write(rt.alloc(), text, expected)?, "{shows}");
    }
    Ok(())
}

// Whether a copy is equal to a job and has one site.
fn is_copy(copy: &Job, job: &Job) -> bool {
    copy == job && sites_in(&copy.work) == 1
}

// Whether the piece of a job's copy, with what the job writes, begins with site 1.
fn begins_with_one<'p>(alloc: Global, job: Job<'p>, copy: Job<'p>) -> Result<bool, AllocError>
    requires { copy ≡ job }
{
    let Piece { written, .. } = piece_of(alloc, job)?;
    Ok(Piece::new(copy, written).job.first == 1)
}

// Whether the job of a program's body has such a copy.
fn copies_its_job(alloc: Global, accepted: &Accepted) -> Result<bool, Fail> {
    let job = body_job(alloc, accepted.program())?;
    let copy = job.copy()?;
    let is_same = is_copy(&copy, &job);
    let begins = begins_with_one(alloc, job, copy)?;
    Ok(is_same && begins)
}

#[test]
fn a_job_is_copied_whole(rt: HostRuntime) -> Result<(), Fail> {
    let text = b"array a[4]; team i in 0..2 by 2 { a[i] = i + 5; }";
    assert!(rt; holds(rt.alloc(), text.as_slice(), &copies_its_job)?);
    Ok(())
}

//! Texts with the lines of their arrays, and texts without.
use crate::error::TextError;
use crate::program::run_program;
use crate::text::lines_of;
use array_eval::Store;
use array_lang::parse;
use disjoint_check::check;
use std::alloc::Global;
use std::sync::Wait;
use std::test::Fail;
use std::thread::Threads;

// Pieces at each depth of constructs, teams in phases, an `if` that chooses a construct by a cell, and a loop of constructs.
const DEEP: &[u8] = b"array a[8]; array b[8]; array c[2]; array d[4];
team i in 0..8 by 4 { a[i] = i * i; } barrier { b[i] = a[7 - i]; }
par { { team i in 0..4 by 2 { par { { a[i] = b[i] + 1; } { d[i] = 2; } } } } { c[0] = 5; } }
for turn in 0..3 {
  if c[0] > 4 { par { { c[0] = c[0] - 1; } { c[1] = c[1] + turn + 3; } } }
  else { team i in 4..8 by 4 { a[i] = 0 - i; } }
}
";

const DEEP_LINES: &[u8] =
    b"a = 50 37 26 17 -4 -5 -6 -7\nb = 49 36 25 16 9 4 1 0\nc = 4 3\nd = 2 2 2 2\n";

// Whether a text has these lines on 1, 2, 4 and 16 harts.
fn has_lines<R: Threads + Wait + Sync>(rt: &R, alloc: Global, text: &[u8], lines: &[u8]) -> bool {
    for harts in [1u8, 2, 4, 16] {
        match lines_of(rt, alloc, harts, text) {
            Ok(found) => {
                if found.as_slice() != lines {
                    return false;
                }
            }
            Err(_) => return false,
        }
    }
    true
}

#[test]
fn each_number_of_harts_leaves_the_same_arrays(rt: HostRuntime) -> Result<(), Fail> {
    assert!(rt; has_lines(&rt, rt.alloc(), DEEP, DEEP_LINES));
    assert!(rt; has_lines(&rt, rt.alloc(), b"array a[2]; a[1] = 7;", b"a = 0 7\n"));
    Ok(())
}

#[test]
fn an_accepted_program_leaves_its_store(rt: HostRuntime) -> Result<(), Fail> {
    let mut expected = Store::zero(rt.alloc(), 2)?;
    expected.put(1, 7)?;
    let text = b"array a[2]; par { { a[0] = 0; } { a[1] = 7; } }";
    let Ok(program) = parse(rt.alloc(), text) else {
        return Err(Fail::new("no program"));
    };
    let Ok(accepted) = check(rt.alloc(), &program, 1) else {
        return Err(Fail::new("not accepted"));
    };
    match run_program(&rt, rt.alloc(), 2, &accepted) {
        Ok(store) => assert!(rt; store == expected),
        Err(error) => assert!(rt; false, "{error:?}"),
    }
    Ok(())
}

// Whether a text has this error on two harts.
fn fails_by<R: Threads + Wait + Sync>(rt: &R, alloc: Global, text: &[u8], line: &[u8]) -> bool {
    match lines_of(rt, alloc, 2, text) {
        Err(TextError::Syntax(found)) => found.as_slice() == line,
        Err(TextError::Refused(found)) => found.as_slice() == line,
        _ => false,
    }
}

#[test]
fn texts_without_lines_say_why(rt: HostRuntime) -> Result<(), Fail> {
    assert!(rt;
        fails_by(
            &rt,
            rt.alloc(),
            b"array a[2];\npar { { a[1] = 1; } { a[1] = 2; } }",
            b"refused: overlap on a[1] at line 2\n"
        )
    );
    assert!(rt;
        fails_by(
            &rt,
            rt.alloc(),
            b"array a[2",
            b"syntax: unexpected at byte 9\n"
        )
    );
    let long = Vec::from_elem(rt.alloc(), b' ', 65_537)?;
    assert_eq!(rt;
        lines_of(&rt, rt.alloc(), 2, long.as_slice()),
        Err(TextError::TooLong)
    );
    Ok(())
}

#[test]
fn harts_out_of_range_are_named(rt: HostRuntime) -> Result<(), Fail> {
    for harts in [0u8, 65] {
        assert_eq!(rt;
            lines_of(&rt, rt.alloc(), harts, b"array a[1];"),
            Err(TextError::HartCount(harts))
        );
    }
    Ok(())
}

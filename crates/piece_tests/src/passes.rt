//! The sites that machines report as not entered.

use crate::driving::{Turn, holds, turns};
use array_jobs::body_job;
use disjoint_check::Accepted;
use std::alloc::Global;
use std::test::Fail;

// Whether the steps of a program are an `if` that begins, its assignment, its end, a construct, and the end of the body.
fn has_no_pass(alloc: Global, accepted: &Accepted) -> Result<bool, Fail> {
    let turns = turns(alloc, body_job(alloc, accepted.program())?)?;
    let expected = [
        Turn::On,
        Turn::On,
        Turn::On,
        Turn::Construct,
        Turn::On,
        Turn::Over,
    ];
    Ok(turns.as_slice() == expected.as_slice())
}

#[test]
fn a_side_without_sites_is_no_pass(rt: HostRuntime) -> Result<(), Fail> {
    let first =
        b"array a[3]; if 1 { a[0] = 1; } else { a[1] = 2; } par { { a[0] = 3; } { a[2] = 4; } }";
    assert!(rt; holds(rt.alloc(), first.as_slice(), &has_no_pass)?);
    let second =
        b"array a[3]; if 0 { a[0] = 1; } else { a[1] = 2; } par { { a[0] = 3; } { a[2] = 4; } }";
    assert!(rt; holds(rt.alloc(), second.as_slice(), &has_no_pass)?);
    Ok(())
}

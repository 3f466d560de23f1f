//! Bounds of the values of expressions.

use crate::programs::parsed;
use array_eval::Scope;
use array_tree::{Name, Stmt};
use std::alloc::Global;
use std::process::Abort;
use std::test::Fail;
use touch_bounds::{Interval, Ranges, interval_of};

// The bounds of an expression of `i`, which lies between two numbers, and of `j`, which is 4.
fn bounds(alloc: Global, expr: &str, least: i64, greatest: i64) -> Result<Option<Interval>, Fail> {
    let text = format!(in alloc; "array a[9]; a[0] = {expr};")?;
    let program = parsed(alloc, text.as_str())?;
    let i = Name::new(alloc, b"i")?;
    let j = Name::new(alloc, b"j")?;
    let around = Scope::Outermost;
    let four = Scope::Turn {
        name: &j,
        value: 4,
        outer: &around,
    };
    let outer = Ranges::Fixed(&four);
    let ranges = Ranges::Loop {
        name: &i,
        within: Interval { least, greatest },
        outer: &outer,
    };
    match program.body.statements.first() {
        Some(Stmt::Assign { value, .. }) => Ok(interval_of(value, &ranges)),
        _ => Err(Fail::new("the text is no assignment")),
    }
}

// An expression, the least and the greatest `i`, and the expected bounds, if there are any.
type Case<'c> = (&'c str, (i64, i64), Option<(i64, i64)>);

// Whether exactly these bounds are found.
fn are_noted(rt: &impl Abort, alloc: Global, cases: &[Case<'_>]) -> Result<(), Fail> {
    for (expr, (low, high), noted) in cases {
        let wanted = noted.map(|(least, greatest)| Interval { least, greatest });
        assert!(rt; bounds(alloc, expr, *low, *high)? == wanted, "{expr}");
    }
    Ok(())
}

#[test]
fn numbers_and_variables_have_their_own(rt: HostRuntime) -> Result<(), Fail> {
    are_noted(
        &rt,
        rt.alloc(),
        &[
            ("7", (-2, 5), Some((7, 7))),
            ("i", (-2, 5), Some((-2, 5))),
            ("j", (-2, 5), Some((4, 4))),
            ("k", (-2, 5), Some((0, 0))),
            ("a[i]", (0, 5), None),
        ],
    )
}

#[test]
fn sums_and_differences_take_both_ends(rt: HostRuntime) -> Result<(), Fail> {
    are_noted(
        &rt,
        rt.alloc(),
        &[
            ("i + 3", (-2, 5), Some((1, 8))),
            ("i + i", (-2, 5), Some((-4, 10))),
            ("j - i", (-2, 5), Some((-1, 6))),
            ("-i", (-2, 5), Some((-5, 2))),
        ],
    )
}

#[test]
fn products_take_all_four_corners(rt: HostRuntime) -> Result<(), Fail> {
    are_noted(
        &rt,
        rt.alloc(),
        &[
            ("i * 3", (-2, 5), Some((-6, 15))),
            ("i * -3", (-2, 5), Some((-15, 6))),
            ("i * i", (-2, 5), Some((-10, 25))),
            ("i * i", (-5, -2), Some((4, 25))),
        ],
    )
}

#[test]
fn quotients_are_noted_by_constants(rt: HostRuntime) -> Result<(), Fail> {
    are_noted(
        &rt,
        rt.alloc(),
        &[
            ("i / 2", (-3, 5), Some((-1, 2))),
            ("i / -2", (-3, 5), Some((-2, 1))),
            ("i / j", (-3, 9), Some((0, 2))),
            ("i / 0", (-3, 5), Some((0, 0))),
            ("j / i", (1, 2), None),
        ],
    )
}

#[test]
fn remainders_have_the_sign_of_the_left_side(rt: HostRuntime) -> Result<(), Fail> {
    are_noted(
        &rt,
        rt.alloc(),
        &[
            ("i % 8", (0, 5), Some((0, 5))),
            ("i % 4", (0, 5), Some((0, 3))),
            ("i % 4", (-7, -1), Some((-3, 0))),
            ("i % 4", (-7, 9), Some((-3, 3))),
            ("i % 0", (-7, 9), Some((0, 0))),
            ("i % -4", (0, 9), None),
        ],
    )
}

#[test]
fn comparisons_give_one_or_nothing(rt: HostRuntime) -> Result<(), Fail> {
    are_noted(
        &rt,
        rt.alloc(),
        &[
            ("i < 3", (-2, 5), Some((0, 1))),
            ("i >= j", (-2, 5), Some((0, 1))),
            ("3 * (i == j)", (-2, 5), Some((0, 3))),
            ("i != a[0]", (-2, 5), None),
        ],
    )
}

#[test]
fn what_may_wrap_is_not_noted(rt: HostRuntime) -> Result<(), Fail> {
    let most = i64::MAX;
    let least = i64::MIN;
    are_noted(
        &rt,
        rt.alloc(),
        &[
            ("i + 1", (0, most - 1), Some((1, most))),
            ("i + 1", (0, most), None),
            ("i - 1", (least + 1, 0), Some((least, -1))),
            ("i - 1", (least, 0), None),
            ("-i", (least, 0), None),
            ("i * 2", (0, most), None),
            ("i / -1", (least, 0), None),
            ("i / 1", (least, most), Some((least, most))),
            ("i % 1", (least, most), Some((0, 0))),
        ],
    )
}

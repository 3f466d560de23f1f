//! Which texts are worth analysing: those with ten times the analysis' work, or more.
use crate::programs::parsed;
use std::alloc::Global;
use std::test::Fail;
use touch_bounds::statement_pays;

// Texts, and whether analysing their first statement is worth its time. A statement counts once in its text, and in its work as
// often as the loops around it turn. A loop or team without a turn counts without its body.
const ROWS: [(&str, bool); 10] = [
    ("array a[1]; a[0] = 1;", false),
    ("array a[1]; for i in 0..9 { a[0] = i; }", false),
    ("array a[1]; for i in 0..10 { a[0] = i; }", true),
    (
        "array a[1]; for i in 0..10 { if 1 { a[0] = i; } else { a[0] = 0; } }",
        true,
    ),
    (
        "array a[1]; for i in 0..3 { for j in 0..3 { a[0] = i; } }",
        false,
    ),
    (
        "array a[1]; for i in 0..4 { for j in 0..4 { a[0] = i; } }",
        true,
    ),
    (
        "array a[1]; for i in 5..5 { for j in 0..1000 { a[0] = i; } }",
        false,
    ),
    (
        "array a[1]; for i in 0..9 { for j in 3..3 { for k in 0..1000 { a[0] = i; } } }",
        false,
    ),
    (
        "array a[1]; for i in 0..4000 { team j in 7..7 by 2 { a[0] = j; } }",
        true,
    ),
    (
        "array a[1]; if 0 { for i in 0..1000 { a[0] = i; } } else { }",
        true,
    ),
];

// Whether analysing the first statement of a text is worth its time.
fn pays(alloc: Global, text: &str) -> Result<bool, Fail> {
    let program = parsed(alloc, text)?;
    let first = program.body.statements.first().ok_or("a statement")?;
    Ok(statement_pays(first))
}

#[test]
fn a_look_pays_where_the_work_is_ten_times_the_text(rt: HostRuntime) -> Result<(), Fail> {
    for (text, wanted) in ROWS {
        assert_eq!(rt; pays(rt.alloc(), text)?, wanted, "{text}");
    }
    Ok(())
}

//! The recorded stretches of the cells that blocks touch, and pieces that are apart.
ghost use Rattle.array_tree.specs.Trees.{declarations_of};
ghost use Rattle.array_meaning.specs.Stores.{arrays_of, AreSized};

use crate::programs::{are_sized, parsed};
use array_eval::{Layout, Scope};
use array_tree::{Program, Stmt};
use std::alloc::Global;
use std::process::Abort;
use std::test::Fail;
use touch_bounds::{
    Ranges, Stretch, Touch, UNTOUCHED, branches_are_apart, loop_is_settled, members_are_apart,
    note_block,
};

// The recorded stretches of each array of a program, in order of declaration, if all are known.
fn noted(rt: &impl Abort, alloc: Global, text: &str) -> Result<Option<Vec<Touch>>, Fail> {
    let program = parsed(alloc, text)?;
    assert!(rt; are_sized(&program.arrays));
    let layout = Layout::new(alloc, &program.arrays)?;
    let outermost = Scope::Outermost;
    let ranges = Ranges::Fixed(&outermost);
    let mut touches = vec![in alloc; UNTOUCHED; layout.count()]?;
    let all = note_block(&layout, &program.body, &ranges, &mut touches);
    Ok(if all { Some(touches) } else { None })
}

// Whether each text has exactly these recorded stretches.
fn are_noted(rt: &impl Abort, alloc: Global, cases: &[(&str, &[Touch])]) -> Result<(), Fail> {
    for (text, touches) in cases {
        let noted = noted(rt, alloc, text)?;
        assert!(rt;
            noted.is_some_and(|noted| noted.as_slice() == *touches),
            "{text}"
        );
    }
    Ok(())
}

// Whether all stretches of each text are known.
fn can_be_noted(rt: &impl Abort, alloc: Global, cases: &[(&str, bool)]) -> Result<(), Fail> {
    for (text, noted_of) in cases {
        assert!(rt; noted(rt, alloc, text)?.is_some() == *noted_of, "{text}");
    }
    Ok(())
}

fn read(from: usize, to: usize) -> Touch {
    Touch {
        read: Stretch { from, to },
        written: UNTOUCHED.written,
    }
}

fn written(from: usize, to: usize) -> Touch {
    Touch {
        read: UNTOUCHED.read,
        written: Stretch { from, to },
    }
}

#[test]
fn loops_touch_what_their_turns_do(rt: HostRuntime) -> Result<(), Fail> {
    let shifted = "array a[10]; array b[4]; for i in 0..4 { a[i + 2] = b[3 - i]; }";
    let nested = "array a[10]; for i in 0..3 { for j in 0..2 { a[3 * i + j] = i; } }";
    let empty = "array a[10]; for i in 5..5 { a[99] = a[i]; }";
    let siblings = "array a[10]; for i in 0..2 { a[i] = 0; } for i in 6..8 { a[i] = 0; }";
    are_noted(
        &rt,
        rt.alloc(),
        &[
            (shifted, &[written(2, 6), read(10, 14)]),
            (nested, &[written(0, 8)]),
            (empty, &[UNTOUCHED]),
            (siblings, &[written(0, 8)]),
        ],
    )
}

#[test]
fn both_sides_count_and_all_that_they_read(rt: HostRuntime) -> Result<(), Fail> {
    let sides = "array a[3]; array b[9]; if a[1] { b[2] = 0; } else { b[5] = 0; }";
    let dynamic = "array a[3]; array b[9]; b[a[2]] = 1;";
    let constructs = "array a[8];
        par { { a[1] = 0; } { team i in 2..6 by 2 { a[i] = 1; } barrier { a[i + 1] = 2; } } }";
    are_noted(
        &rt,
        rt.alloc(),
        &[
            (sides, &[read(1, 2), written(5, 9)]),
            (dynamic, &[read(2, 3), written(3, 12)]),
            (constructs, &[written(1, 7)]),
        ],
    )
}

#[test]
fn an_index_that_may_be_outside_is_not_noted(rt: HostRuntime) -> Result<(), Fail> {
    can_be_noted(
        &rt,
        rt.alloc(),
        &[
            ("array a[4]; for i in 0..4 { a[i] = 0; }", true),
            ("array a[4]; for i in 0..5 { a[i] = 0; }", false),
            ("array a[4]; for i in 0..4 { a[0] = a[i - 1]; }", false),
            ("array a[4]; for i in 0..4 { a[i * i - i * i] = 0; }", false),
            ("array a[4]; b[0] = 0;", false),
        ],
    )
}

// Whether the text shows that the pieces of the first statement are apart: its branches, the members in its first phase, or
// those of all sites that a loop enters.
fn are_apart(rt: &impl Abort, alloc: Global, text: &str) -> Result<bool, Fail> {
    let program = parsed(alloc, text)?;
    assert!(rt; are_sized(&program.arrays));
    first_is_apart(alloc, &program)
}

fn first_is_apart(alloc: Global, program: &Program) -> Result<bool, Fail>
    requires { AreSized (arrays_of (declarations_of program.now.arrays)) }
{
    let layout = Layout::new(alloc, &program.arrays)?;
    let outermost = Scope::Outermost;
    let ranges = Ranges::Fixed(&outermost);
    match program.body.statements.first() {
        Some(Stmt::Par { branches, .. }) => {
            Ok(branches_are_apart(alloc, &layout, branches, &ranges))
        }
        Some(
            Stmt::Team {
                var,
                low,
                high,
                members,
                phases,
                ..
            },
        ) => match phases.blocks.first() {
            Some(phase) => Ok(members_are_apart(
                alloc,
                &layout,
                phase,
                var,
                *low,
                *high,
                members.unsigned_abs(),
                &ranges,
            )),
            None => Err(Fail::new("the team has no phase")),
        },
        Some(
            Stmt::For {
                var,
                low,
                high,
                body,
                ..
            },
        ) => Ok(loop_is_settled(alloc, &layout, body, var, *low, *high, &ranges)),
        _ => Err(Fail::new("the text begins with no construct and no loop")),
    }
}

// The same for each text.
fn are_seen_apart(rt: &impl Abort, alloc: Global, cases: &[(&str, bool)]) -> Result<(), Fail> {
    for (text, apart) in cases {
        assert!(rt; are_apart(rt, alloc, text)? == *apart, "{text}");
    }
    Ok(())
}

#[test]
fn branches_are_compared_each_with_each(rt: HostRuntime) -> Result<(), Fail> {
    let apart =
        "array a[4]; array b[2]; par { { a[2] = b[0]; } { a[0] = b[0]; } { a[1] = b[1]; } }";
    let first_and_last = "array a[4]; par { { a[0] = 1; } { a[1] = 1; } { a[0] = 2; } }";
    let read_first = "array a[4]; array b[1]; par { { b[0] = a[3]; } { a[3] = 1; } }";
    let strides = "array a[8];
        par { { for i in 0..4 { a[2 * i] = 1; } } { for i in 0..4 { a[2 * i + 1] = 1; } } }";
    are_seen_apart(
        &rt,
        rt.alloc(),
        &[
            (apart, true),
            (first_and_last, false),
            (read_first, false),
            (strides, false),
        ],
    )
}

#[test]
fn members_touch_what_their_iterations_do(rt: HostRuntime) -> Result<(), Fail> {
    let stencil = "array a[8]; array b[8]; team i in 1..7 by 3 { b[i] = a[i - 1] + a[i + 1]; }";
    let in_place = "array a[8]; team i in 1..7 by 3 { a[i] = a[i - 1]; }";
    let shared = "array a[8]; team i in 0..8 by 4 { a[i / 3] = 1; }";
    let idle = "array a[8]; team i in 0..2 by 64 { a[i] = 1; }";
    are_seen_apart(
        &rt,
        rt.alloc(),
        &[
            (stencil, true),
            (in_place, false),
            (shared, false),
            (idle, true),
        ],
    )
}

#[test]
fn a_loop_is_settled_for_all_its_turns(rt: HostRuntime) -> Result<(), Fail> {
    let fixed = "array a[2]; for i in 0..9 { par { { a[0] = i; } { a[1] = i; } } }";
    let halves = "array a[6]; for i in 0..3 { par { { a[i] = 1; } { a[i + 3] = 2; } } }";
    let each_turn_alone = "array a[4]; for i in 0..3 { par { { a[i] = 1; } { a[i + 1] = 2; } } }";
    let phases =
        "array a[4]; for i in 0..2 { team j in 0..4 by 2 { a[j] = i; } barrier { a[3 - j] = i; } }";
    let second_phase =
        "array a[4]; for i in 0..2 { team j in 0..4 by 2 { a[j] = i; } barrier { a[0] = i; } }";
    are_seen_apart(
        &rt,
        rt.alloc(),
        &[
            (fixed, true),
            (halves, true),
            (each_turn_alone, false),
            (phases, true),
            (second_phase, false),
        ],
    )
}

#[test]
fn all_sites_of_a_loop_are_looked_at(rt: HostRuntime) -> Result<(), Fail> {
    let in_a_branch = "array a[3];
        for i in 0..2 { par { { par { { a[0] = 1; } { a[0] = 2; } } } { a[2] = 1; } } }";
    let in_a_phase = "array a[3];
        for i in 0..2 { team j in 0..1 by 1 { par { { a[0] = 1; } { a[1] = a[0]; } } } }";
    let last = "array a[3]; for i in 0..2 { a[2] = 0; for j in 0..2 {
        par { { a[0] = 1; } { a[1] = 1; } } par { { a[0] = 1; } { a[0] = 1; } } } }";
    let no_turn =
        "array a[3]; for i in 0..2 { for j in 5..5 { par { { a[0] = 1; } { a[0] = 2; } } } }";
    are_seen_apart(
        &rt,
        rt.alloc(),
        &[
            (in_a_branch, false),
            (in_a_phase, false),
            (last, false),
            (no_turn, true),
        ],
    )
}

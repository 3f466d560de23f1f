//! Spread programs: their texts, the cells with which they end, and programs that can't be spread.
ghost use Rattle.std.specs.Prelude.{◌≡◌, ◌≤◌, IfOk, length};
ghost use Rattle.array_tree.specs.Trees.{program_of};
ghost use Rattle.spread_laws.specs.Served.{HasMeaning};

use crate::evaluating::writes;
use crate::programs::parsed;
use array_eval::Store;
use array_tree::Program;
use disjoint_check::check_meaning;
use std::alloc::{AllocError, Global};
use std::test::Fail;
use tally_cells::{TallyFault, first_cells, spread};

const TWO_ADDS: &str =
    "array t_sum[1]; par { { t_sum[0] = t_sum[0] + 3; } { t_sum[0] = t_sum[0] + 4; } }";

// Each turn adds 4; the rows are those of the second one.
const LOOPED_TEAM: &str =
    "array q_sum[1]; for k in 0..2 { team i in -3..5 by 3 { q_sum[0] = q_sum[0] + i; } }";

// The members have unequal shares.
const UNEVEN_TEAM: &str = "array q_sum[1]; team i in 0..65 by 4 { q_sum[0] = q_sum[0] + 1; }";

const SQUARES: &str = "array a[8]; array q_sum[1];
    team i in 0..8 by 4 { a[i] = i * i; } barrier { q_sum[0] = q_sum[0] + a[i]; }";

const WRAPPING: &str = "array q_sum[1]; q_sum[0] = 9223372036854775807;
    par { { q_sum[0] = q_sum[0] + 1; } { q_sum[0] = q_sum[0] + 1; } }";

// Two arrays are summed in one construct.
const TWO_SUMS: &str = "array a_sum[2]; array b_sum[1]; \
    par { { a_sum[1] = a_sum[1] + 2; b_sum[0] = b_sum[0] + 3; } { b_sum[0] = b_sum[0] + 4; } }";

const CHOSEN_ADDS: &str = "array q_sum[1];
    team i in 0..4 by 2 { if i < 2 { q_sum[0] = q_sum[0] + i; } else { q_sum[0] = q_sum[0] + 10; } }";

// The first turn enters the `par`, which adds 7, and the second the team, which adds 6.
const CHOSEN_CONSTRUCTS: &str = "array q_sum[1]; for k in 0..2 { if q_sum[0] < 5 { \
    par { { q_sum[0] = q_sum[0] + 3; } { q_sum[0] = q_sum[0] + 4; } } } else { \
    team i in 0..4 by 2 { q_sum[0] = q_sum[0] + i; } } }";

// Member 1 adds 5, and member 0 enters a construct that adds nothing.
const CHOSEN_MEMBERS: &str = "array a[2]; array q_sum[1]; a[1] = 1;
    team i in 0..2 by 2 { if a[i] { q_sum[0] = q_sum[0] + 5; } else { par { { a[i] = 3; } } } }";

// Two members have no iteration.
const MORE_MEMBERS: &str = "array q_sum[1]; team i in 0..2 by 4 { q_sum[0] = q_sum[0] + 1; }";

const NO_ITERATIONS: &str = "array q_sum[1]; team i in 3..3 by 2 { q_sum[0] = q_sum[0] + i; }";

// The `par` adds 6 and the team 1; the third row is still that of the `par`.
const TWO_WIDTHS: &str = "array q_sum[1]; \
    par { { q_sum[0] = q_sum[0] + 1; } { q_sum[0] = q_sum[0] + 2; } { q_sum[0] = q_sum[0] + 3; } } \
    team i in 0..2 by 2 { q_sum[0] = q_sum[0] + i; }";

// Programs, and the array lines with which their spreads end. The last lines are those of the rows.
const SUMS: [(&str, &str); 12] = [
    (TWO_ADDS, "t_sum = 7\nt_sum_rows = 3 4\n"),
    (
        SQUARES,
        "a = 0 1 4 9 16 25 36 49\nq_sum = 140\nq_sum_rows = 1 13 41 85\n",
    ),
    (UNEVEN_TEAM, "q_sum = 65\nq_sum_rows = 16 16 16 17\n"),
    (LOOPED_TEAM, "q_sum = 8\nq_sum_rows = -5 0 9\n"),
    (WRAPPING, "q_sum = -9223372036854775807\nq_sum_rows = 1 1\n"),
    (
        TWO_SUMS,
        "a_sum = 0 2\nb_sum = 7\na_sum_rows = 0 2 0 0\nb_sum_rows = 3 4\n",
    ),
    (CHOSEN_ADDS, "q_sum = 21\nq_sum_rows = 1 20\n"),
    (CHOSEN_CONSTRUCTS, "q_sum = 13\nq_sum_rows = 1 5\n"),
    (CHOSEN_MEMBERS, "a = 3 1\nq_sum = 5\nq_sum_rows = 0 5\n"),
    (MORE_MEMBERS, "q_sum = 2\nq_sum_rows = 0 1 0 1\n"),
    (NO_ITERATIONS, "q_sum = 0\nq_sum_rows = 0 0\n"),
    (TWO_WIDTHS, "q_sum = 7\nq_sum_rows = 0 1 3\n"),
];

// Programs and their spreads.
const SPREADS: [(&str, &str); 6] = [
    (
        TWO_ADDS,
        "array t_sum[1]; array t_sum_rows[2]; \
        for t_sum_cell in 0..2 { t_sum_rows[t_sum_cell] = 0; } \
        par { { t_sum_rows[0 * 1 + 0] = t_sum_rows[0 * 1 + 0] + 3; } \
        { t_sum_rows[1 * 1 + 0] = t_sum_rows[1 * 1 + 0] + 4; } } \
        for t_sum_cell in 0..2 { \
        t_sum[t_sum_cell % 1] = t_sum[t_sum_cell % 1] + t_sum_rows[t_sum_cell]; }",
    ),
    (
        LOOPED_TEAM,
        "array q_sum[1]; array q_sum_rows[3]; for k in 0..2 { \
        for q_sum_cell in 0..3 { q_sum_rows[q_sum_cell] = 0; } \
        team i in -3..5 by 3 { q_sum_rows[((i - -3 + 1) * 3 - 1) / 8 * 1 + 0] \
        = q_sum_rows[((i - -3 + 1) * 3 - 1) / 8 * 1 + 0] + i; } \
        for q_sum_cell in 0..3 { \
        q_sum[q_sum_cell % 1] = q_sum[q_sum_cell % 1] + q_sum_rows[q_sum_cell]; } }",
    ),
    (
        UNEVEN_TEAM,
        "array q_sum[1]; array q_sum_rows[4]; \
        for q_sum_cell in 0..4 { q_sum_rows[q_sum_cell] = 0; } \
        team i in 0..65 by 4 { q_sum_rows[((i - 0 + 1) * 4 - 1) / 65 * 1 + 0] \
        = q_sum_rows[((i - 0 + 1) * 4 - 1) / 65 * 1 + 0] + 1; } \
        for q_sum_cell in 0..4 { \
        q_sum[q_sum_cell % 1] = q_sum[q_sum_cell % 1] + q_sum_rows[q_sum_cell]; }",
    ),
    (
        TWO_SUMS,
        "array a_sum[2]; array b_sum[1]; array a_sum_rows[4]; array b_sum_rows[2]; \
        for a_sum_cell in 0..4 { a_sum_rows[a_sum_cell] = 0; } \
        for b_sum_cell in 0..2 { b_sum_rows[b_sum_cell] = 0; } \
        par { { a_sum_rows[0 * 2 + 1] = a_sum_rows[0 * 2 + 1] + 2; \
        b_sum_rows[0 * 1 + 0] = b_sum_rows[0 * 1 + 0] + 3; } \
        { b_sum_rows[1 * 1 + 0] = b_sum_rows[1 * 1 + 0] + 4; } } \
        for a_sum_cell in 0..4 { \
        a_sum[a_sum_cell % 2] = a_sum[a_sum_cell % 2] + a_sum_rows[a_sum_cell]; } \
        for b_sum_cell in 0..2 { \
        b_sum[b_sum_cell % 1] = b_sum[b_sum_cell % 1] + b_sum_rows[b_sum_cell]; }",
    ),
    (
        TWO_WIDTHS,
        "array q_sum[1]; array q_sum_rows[3]; \
        for q_sum_cell in 0..3 { q_sum_rows[q_sum_cell] = 0; } \
        par { { q_sum_rows[0 * 1 + 0] = q_sum_rows[0 * 1 + 0] + 1; } \
        { q_sum_rows[1 * 1 + 0] = q_sum_rows[1 * 1 + 0] + 2; } \
        { q_sum_rows[2 * 1 + 0] = q_sum_rows[2 * 1 + 0] + 3; } } \
        for q_sum_cell in 0..3 { \
        q_sum[q_sum_cell % 1] = q_sum[q_sum_cell % 1] + q_sum_rows[q_sum_cell]; } \
        for q_sum_cell in 0..2 { q_sum_rows[q_sum_cell] = 0; } \
        team i in 0..2 by 2 { q_sum_rows[((i - 0 + 1) * 2 - 1) / 2 * 1 + 0] \
        = q_sum_rows[((i - 0 + 1) * 2 - 1) / 2 * 1 + 0] + i; } \
        for q_sum_cell in 0..2 { \
        q_sum[q_sum_cell % 1] = q_sum[q_sum_cell % 1] + q_sum_rows[q_sum_cell]; }",
    ),
    (
        CHOSEN_CONSTRUCTS,
        "array q_sum[1]; array q_sum_rows[2]; for k in 0..2 { if q_sum[0] < 5 { \
        for q_sum_cell in 0..2 { q_sum_rows[q_sum_cell] = 0; } \
        par { { q_sum_rows[0 * 1 + 0] = q_sum_rows[0 * 1 + 0] + 3; } \
        { q_sum_rows[1 * 1 + 0] = q_sum_rows[1 * 1 + 0] + 4; } } \
        for q_sum_cell in 0..2 { \
        q_sum[q_sum_cell % 1] = q_sum[q_sum_cell % 1] + q_sum_rows[q_sum_cell]; } } else { \
        for q_sum_cell in 0..2 { q_sum_rows[q_sum_cell] = 0; } \
        team i in 0..4 by 2 { q_sum_rows[((i - 0 + 1) * 2 - 1) / 4 * 1 + 0] \
        = q_sum_rows[((i - 0 + 1) * 2 - 1) / 4 * 1 + 0] + i; } \
        for q_sum_cell in 0..2 { \
        q_sum[q_sum_cell % 1] = q_sum[q_sum_cell % 1] + q_sum_rows[q_sum_cell]; } } }",
    ),
];

// Programs that can't be spread: another write in a construct, a name that the rows need, a variable that they need, and an add
// inside two constructs.
const REFUSED: [(&str, TallyFault); 4] = [
    (
        "array q_sum[1]; par { { q_sum[0] = 1; } }",
        TallyFault::Unshaped { line: 1 },
    ),
    (
        "array q_sum[1]; array q_sum_rows[1]; par { { q_sum[0] = q_sum[0] + 1; } }",
        TallyFault::NameTaken { line: 1 },
    ),
    (
        "array q_sum[1];\nfor q_sum_cell in 0..2 { par { { q_sum[0] = q_sum[0] + 1; } } }",
        TallyFault::NameTaken { line: 2 },
    ),
    (
        "array q_sum[1]; par { { par { { q_sum[0] = q_sum[0] + 1; } } } }",
        TallyFault::Unshaped { line: 1 },
    ),
];

// The program of a text, which has a meaning.
fn meant(alloc: Global, text: &str) -> Result<Program, Fail>
    ensures { IfOk result (λ program. HasMeaning (program_of program)) }
{
    let program = parsed(alloc, text)?;
    check_meaning(alloc, &program, 1)?;
    Ok(program)
}

// Whether the spread of a text's program ends with these array lines.
fn sums_to(alloc: Global, text: &str, expected: &str) -> Result<bool, Fail> {
    let program = meant(alloc, text)?;
    let result = spread(alloc, &program)?;
    writes(alloc, &result, expected.as_bytes())
}

#[test]
fn spread_programs_end_with_their_sums(rt: HostRuntime) -> Result<(), Fail> {
    for (text, expected) in SUMS {
        assert!(rt; sums_to(rt.alloc(), text, expected)?, "{text}");
    }
    Ok(())
}

// Whether the spread of a text's program is the program of the other text.
fn is_spread(alloc: Global, text: &str, expected: &str) -> Result<bool, Fail> {
    let program = meant(alloc, text)?;
    let result = spread(alloc, &program)?;
    let expected = parsed(alloc, expected)?;
    Ok(result == expected)
}

#[test]
fn pieces_add_into_rows_of_their_own(rt: HostRuntime) -> Result<(), Fail> {
    for (text, expected) in SPREADS {
        assert!(rt; is_spread(rt.alloc(), text, expected)?, "{text}");
    }
    Ok(())
}

// Why a text's program can't be spread.
fn refusal(alloc: Global, text: &str) -> Result<Option<TallyFault>, Fail> {
    let program = meant(alloc, text)?;
    Ok(spread(alloc, &program).err())
}

#[test]
fn programs_that_rows_do_not_fit_are_refused(rt: HostRuntime) -> Result<(), Fail> {
    for (text, fault) in REFUSED {
        assert!(rt; refusal(rt.alloc(), text)? == Some(fault), "{text}");
    }
    Ok(())
}

// A store that begins with 7 and -5.
fn beginning(alloc: Global, cells: u16) -> Result<Store, AllocError>
    requires { 2 ≤ cells }
    ensures { IfOk result (λ store. length store ≡ cells) }
{
    let mut store = Store::zero(alloc, cells)?;
    store.put(0, 7)?;
    store.put(1, -5)?;
    Ok(store)
}

#[test]
fn the_first_cells_are_cut(rt: HostRuntime) -> Result<(), Fail> {
    let store = beginning(rt.alloc(), 3)?;
    let cut = first_cells(rt.alloc(), &store, 2)?;
    assert!(rt; cut == beginning(rt.alloc(), 2)?);
    Ok(())
}

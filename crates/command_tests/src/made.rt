//! Generated programs: their text, their arrays and their sites.
ghost use Rattle.std.specs.Prelude.{◌≤◌};

use array_eval::{run_one, write_arrays};
use disjoint_check::check;
use language_tests::programs::parsed;
use program_maker::generate;
use std::alloc::Global;
use std::test::Fail;

// The program of seed 7 and size 3, written by hand.
const SEVEN_AT_THREE: &str =
    "array g[9]; array h[9]; array s[3]; team i in 0..3 by 4 { for j in 0..3 { g[i * 3 + j] = i * 7 + j * 15 + 14; } } for t in 0..4 { par { { team i in 0..1 by 2 { par { { for j in 0..1 { h[i * 3 + j] = g[i * 3 + j] + g[i * 3 + (j + 1) % 3] + g[i * 3 + (j + 2) % 3] + g[(i + 1) % 3 * 3 + j] + g[(i + 2) % 3 * 3 + j]; } } { for j in 1..3 { h[i * 3 + j] = g[i * 3 + j] + g[i * 3 + (j + 1) % 3] + g[i * 3 + (j + 2) % 3] + g[(i + 1) % 3 * 3 + j] + g[(i + 2) % 3 * 3 + j]; } } } } } { team i in 1..3 by 2 { par { { for j in 0..1 { h[i * 3 + j] = g[i * 3 + j] + g[i * 3 + (j + 1) % 3] + g[i * 3 + (j + 2) % 3] + g[(i + 1) % 3 * 3 + j] + g[(i + 2) % 3 * 3 + j]; } } { for j in 1..3 { h[i * 3 + j] = g[i * 3 + j] + g[i * 3 + (j + 1) % 3] + g[i * 3 + (j + 2) % 3] + g[(i + 1) % 3 * 3 + j] + g[(i + 2) % 3 * 3 + j]; } } } } } } team i in 0..3 by 4 { for j in 0..3 { g[i * 3 + j] = h[i * 3 + j]; } } } team i in 0..3 by 4 { for j in 0..3 { s[i] = s[i] + g[i * 3 + j]; } }";

#[test]
fn a_made_program_is_its_text(rt: HostRuntime) -> Result<(), Fail> {
    let made = generate(rt.alloc(), 7, 3)?;
    assert!(rt; made == parsed(rt.alloc(), SEVEN_AT_THREE)?);
    Ok(())
}

// The summary of a generated program: its cells, their sum, and its sites.
#[derive(Drop)]
struct Summary {
    cells: u64,
    sum: u64,
    sites: u16,
}

fn outcome(alloc: Global, seed: u64, size: u8) -> Result<Summary, Fail>
    requires some { 1 ≤ size }
    requires few { size ≤ 40 }
{
    let program = generate(alloc, seed, size)?;
    let accepted = check(alloc, &program, 1)?;
    let store = run_one(alloc, accepted.program())?;
    let text = write_arrays(alloc, accepted.program(), &store)?;
    let (cells, sum) = numbers(&text);
    Ok(Summary {
        cells,
        sum,
        sites: accepted.plan().sites(),
    })
}

// The number of numbers in a text, none of them negative, and their sum.
fn numbers(text: &[u8]) -> (u64, u64) {
    let (mut count, mut sum, mut number) = (0u64, 0u64, 0u64);
    for &byte in text {
        if byte.is_ascii_digit() {
            number = number.wrapping_mul(10).wrapping_add(u64::from(byte - b'0'));
        }
        if byte == b' ' {
            count = count.wrapping_add(1);
        }
        if byte == b' ' || byte == b'\n' {
            sum = sum.wrapping_add(number);
            number = 0;
        }
    }
    (count, sum)
}

#[test]
fn seed_7_at_sizes_16_and_1(rt: HostRuntime) -> Result<(), Fail> {
    let large = outcome(rt.alloc(), 7, 16)?;
    // Why 3 more: each array line has one more space than cells, the one before its `=`.
    assert_eq!(rt; large.cells, 528 + 3);
    assert_eq!(rt; large.sum, 85_920_000);
    assert_eq!(rt; large.sites, 82);
    let small = outcome(rt.alloc(), 7, 1)?;
    assert_eq!(rt; small.cells, 3 + 3);
    assert_eq!(rt; small.sum, 26_250);
    assert_eq!(rt; small.sites, 22);
    Ok(())
}

#[test]
fn all_forty_sizes_are_accepted(rt: HostRuntime) -> Result<(), Fail> {
    for size in 1..41u8 {
        let program = generate(rt.alloc(), 7, size)?;
        let accepted = check(rt.alloc(), &program, 4)?;
        assert_eq!(rt; accepted.plan().sites(), u16::from(size) * 4 + 18);
        assert_eq!(rt; accepted.pieces(), u32::from(size) * 8 + 48);
    }
    Ok(())
}

//! Tasks at concrete types: outputs in order, errors, tasks inside tasks, and a slice that tasks share.
ghost use Rattle.std.specs.Prelude.{◌≤◌};

use std::alloc::{AllocError, Global};
use std::test::Fail;
use tasks::{Harts, Task, TaskKind, run_alone};

/// Why digits have no sum.
#[derive(Debug, Drop, PartialEq)]
enum DigitError {
    NotADigit(u8),
    OutOfMemory,
}

impl From<AllocError> for DigitError {
    ghost use Rattle.std.specs.Prelude.{◌≡◌};
    ghost use Rattle.task_tests.specs.declared.digits.DigitError.TheVariants.{OutOfMemory};

    ghost from_gives = { λ _ error. error ≡ OutOfMemory };

    fn from(_error: AllocError) -> DigitError {
        DigitError::OutOfMemory
    }
}

/// The sum of a text's digits or, while it may be cut, the number of its front half times 100 plus that of its back half.
#[derive(Drop)]
struct Digits<'p> {
    text: &'p [u8],
    cuts: u8,
}

impl<'p> TaskKind for Digits<'p> {
    type Output = u64;

    type Error = DigitError;

    ghost gives = { λ _ _. Unit {0} };

    ghost fails = { λ _ _. Unit {0} };

    ghost depth = { λ task. task.cuts };
}

impl<'p> Task for Digits<'p> {
    fn run<H: Harts<Self>>(self, alloc: Global, harts: &mut H) -> Result<u64, DigitError> {
        let Digits { text, cuts } = self;
        if cuts == 0 || text.len() < 2 {
            return sum_of(text);
        }
        let (front, back) = text.split_at(text.len() / 2);
        let mut halves = Vec::with_capacity(alloc, 2)?;
        halves.push_reserved(Digits {
            text: front,
            cuts: cuts - 1,
        });
        halves.push_reserved(Digits {
            text: back,
            cuts: cuts - 1,
        });
        let sums = harts.fork_join(alloc, halves)?;
        Ok(sums.iter().fold(0u64, |sum, part| sum.wrapping_mul(100).wrapping_add(*part)))
    }
}

// The sum of the digits.
fn sum_of(text: &[u8]) -> Result<u64, DigitError> {
    let mut sum = 0u64;
    for byte in text {
        if !byte.is_ascii_digit() {
            return Err(DigitError::NotADigit(*byte));
        }
        sum = sum.wrapping_add((*byte - b'0') as u64);
    }
    Ok(sum)
}

// The number of a text that may be cut so many times.
fn sums(alloc: Global, text: &[u8], cuts: u8) -> Result<u64, DigitError>
    requires { cuts ≤ 16 }
{
    run_alone(alloc, Digits { text, cuts })
}

#[test]
fn outputs_are_in_order(rt: HostRuntime) -> Result<(), Fail> {
    let text = b"11223344";
    assert_eq!(rt; sums(rt.alloc(), text, 0)?, 20);
    assert_eq!(rt; sums(rt.alloc(), text, 1)?, 614);
    assert_eq!(rt; sums(rt.alloc(), text, 2)?, 204 * 100 + 608);
    Ok(())
}

#[test]
fn the_first_failed_task_decides(rt: HostRuntime) -> Result<(), Fail> {
    assert_eq!(rt;
        sums(rt.alloc(), b"1234x6y8", 2),
        Err(DigitError::NotADigit(b'x'))
    );
    assert_eq!(rt;
        sums(rt.alloc(), b"12y4x6y8", 3),
        Err(DigitError::NotADigit(b'y'))
    );
    assert_eq!(rt;
        sums(rt.alloc(), b"1234567z", 0),
        Err(DigitError::NotADigit(b'z'))
    );
    Ok(())
}

#[test]
fn tasks_nest_eight_levels_deep(rt: HostRuntime) -> Result<(), Fail> {
    let digits = Vec::from_elem(rt.alloc(), b'0', 256)?;
    assert_eq!(rt; sums(rt.alloc(), digits.as_slice(), 8)?, 0);
    Ok(())
}

//! The inputs of the runs, made from a seed or read, and the check sums.
use crate::error::DemoError;
use array_tasks::MOST_BYTES;
use std::alloc::{AllocError, Global};
use std::io::Read;

// The multiplier and the increment of Knuth's linear congruential generator MMIX.
const MULTIPLIER: u64 = 6364136223846793005;

const INCREMENT: u64 = 1442695040888963407;

/// `count` numbers of a generator, each below 2^44.
///
/// # Errors
///
/// An allocation failure.
///
/// # Memory
///
/// One list.
pub fn numbers(alloc: Global, count: u32, seed: u64) -> Result<Vec<u64>, AllocError> {
    let mut numbers = Vec::with_capacity(alloc, count as usize)?;
    let mut state = seed;
    for _ in 0..count {
        state = state.wrapping_mul(MULTIPLIER).wrapping_add(INCREMENT);
        numbers.push(state >> 20)?;
    }
    Ok(numbers)
}

/// `count` rows of `length` numbers. The seed of a row is the sum of `seed` and the row's index.
///
/// # Errors
///
/// An allocation failure.
///
/// # Memory
///
/// One list, and one for each row.
pub fn rows(
    alloc: Global,
    count: u32,
    length: u32,
    seed: u64,
) -> Result<Vec<Vec<u64>>, AllocError> {
    let mut rows = Vec::with_capacity(alloc, count as usize)?;
    for row in 0..count {
        rows.push(numbers(alloc, length, seed.wrapping_add(u64::from(row)))?)?;
    }
    Ok(rows)
}

/// Adds numbers to a check sum, which depends on their order.
pub fn sum_of(numbers: &[u64], start: u64) -> u64 {
    numbers.iter().fold(start, |sum, number| {
        sum.wrapping_mul(MULTIPLIER).wrapping_add(*number)
    })
}

/// The text of a program. Of a longer text only one byte more than a program's text may have.
///
/// # Errors
///
/// `NoInput` if the text can't be read, or an allocation fails.
///
/// # Memory
///
/// The text.
pub fn text_of<I: Read + Drop>(alloc: Global, input: I) -> Result<Vec<u8>, DemoError> {
    let mut text = Vec::new(alloc);
    match input.take(MOST_BYTES as u64 + 1).read_to_end(&mut text) {
        Ok(_) => Ok(text),
        Err(_) => Err(DemoError::NoInput),
    }
}

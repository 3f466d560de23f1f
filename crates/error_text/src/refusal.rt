//! The line that reports why a program isn't accepted.
ghost use Rattle.std.specs.Prelude.{◌≡◌, ◌≢◌, ◌++◌, IfOk, OnOk, codes};
ghost use Rattle.std.specs.Fmt.{decimal, signed_decimal};
ghost use Rattle.array_tree.specs.Trees.{program_of, declarations_of};
ghost use Rattle.array_meaning.specs.Stores.{arrays_of};
ghost use Rattle.error_text.specs.RefusalText.{refusal_text, fault_text, limit_text, line_text, cell_text};

use array_tree::{Arrays, Name, Program};
use disjoint_check::{CheckFault, Limit};
use std::alloc::{AllocError, Global};

/// The line of the condition that the program fails. The fault must not be `Memory`.
///
/// # Errors
///
/// `AllocError` if an allocation fails.
///
/// # Memory
///
/// It allocates the line.
pub fn refusal_line(
    alloc: Global,
    program: &Program,
    fault: CheckFault,
) -> Result<Vec<u8>, AllocError>
    requires { fault ≢ CheckFault.Memory }
    ensures { IfOk result (λ line. line.items ≡ refusal_text (program_of program.now) fault) }
{
    let mut text = Vec::new(alloc);
    text.extend_from_slice(b"refused: ".as_slice())?;
    add_fault(alloc, &mut text, program, fault)?;
    Ok(text)
}

// Adds the text of the fault.
fn add_fault(
    alloc: Global,
    text: &mut Vec<u8>,
    program: &Program,
    fault: CheckFault,
) -> Result<(), AllocError>
    requires { fault ≢ CheckFault.Memory }
    ensures { OnOk result (text.new.items
        ≡ text.old.items ++ fault_text (program_of program.now) fault) }
{
    match fault {
        CheckFault::DuplicateName { line } => add_at_line(alloc, text, "name used twice", line),
        CheckFault::UnknownName { line } => add_at_line(alloc, text, "unknown name", line),
        CheckFault::BadRange { line, what, found } => add_range(alloc, text, line, what, found),
        CheckFault::TooDeep { level } => add_count(alloc, text, u64::from(level), " levels\n"),
        CheckFault::TooMuchWork { units } => add_count(alloc, text, units, " units of work\n"),
        CheckFault::TooManySites { sites } => add_count(alloc, text, sites, " sites\n"),
        CheckFault::TooManyPieces { pieces } => add_count(alloc, text, pieces, " pieces\n"),
        CheckFault::OutOfRange {
            line,
            index,
            length,
        } => add_index(alloc, text, line, index, length),
        CheckFault::Overlap { line, cell } => {
            add_on_cell(alloc, text, "overlap on ", &program.arrays, line, cell)
        }
        CheckFault::Memory => unreachable!(),
    }
}

fn add_line(alloc: Global, text: &mut Vec<u8>, line: u32) -> Result<(), AllocError>
    ensures { OnOk result (text.new.items ≡ text.old.items ++ line_text line) }
{
    let line = format!(in alloc; " at line {line}\n")?;
    text.extend_from_slice(line.as_bytes())
}

// Adds a cause, and its line in the program.
pub(crate) fn add_at_line(
    alloc: Global,
    text: &mut Vec<u8>,
    what: &str,
    line: u32,
) -> Result<(), AllocError>
    ensures { OnOk result (text.new.items ≡ text.old.items ++ (what.now ++ line_text line)) }
{
    text.extend_from_slice(what.as_bytes())?;
    add_line(alloc, text, line)
}

fn add_count(alloc: Global, text: &mut Vec<u8>, count: u64, what: &str) -> Result<(), AllocError>
    ensures { OnOk result (text.new.items ≡ text.old.items ++ (decimal count ++ what.now)) }
{
    let count = count.to_string(alloc)?;
    text.extend_from_slice(count.as_bytes())?;
    text.extend_from_slice(what.as_bytes())
}

fn add_signed(
    alloc: Global,
    text: &mut Vec<u8>,
    before: &str,
    number: i64,
) -> Result<(), AllocError>
    ensures { OnOk result (text.new.items
        ≡ text.old.items ++ (before.now ++ signed_decimal number)) }
{
    let number = number.to_string(alloc)?;
    text.extend_from_slice(before.as_bytes())?;
    text.extend_from_slice(number.as_bytes())
}

fn limit_name(what: Limit) -> &'static str
    ensures { result.now ≡ limit_text what }
{
    match what {
        Limit::Length => "length",
        Limit::Names => "names",
        Limit::Cells => "cells",
        Limit::Bounds => "bounds",
        Limit::Members => "members",
        Limit::Branches => "branches",
        Limit::Phases => "phases",
    }
}

fn add_range(
    alloc: Global,
    text: &mut Vec<u8>,
    line: u32,
    what: Limit,
    found: i64,
) -> Result<(), AllocError>
    ensures { OnOk result (text.new.items
        ≡ text.old.items ++ (limit_text what ++ codes " " ++ signed_decimal found
        ++ line_text line)) }
{
    text.extend_from_slice(limit_name(what).as_bytes())?;
    add_signed(alloc, text, " ", found)?;
    add_line(alloc, text, line)
}

fn add_index(
    alloc: Global,
    text: &mut Vec<u8>,
    line: u32,
    index: i64,
    length: u16,
) -> Result<(), AllocError>
    ensures { OnOk result (text.new.items ≡ text.old.items
        ++ (codes "index " ++ signed_decimal index ++ codes " outside " ++ decimal length
        ++ codes " cells" ++ line_text line)) }
{
    add_signed(alloc, text, "index ", index)?;
    text.extend_from_slice(b" outside ".as_slice())?;
    add_count(alloc, text, u64::from(length), " cells")?;
    add_line(alloc, text, line)
}

// Adds a cause on a cell, and its line in the program.
pub(crate) fn add_on_cell(
    alloc: Global,
    text: &mut Vec<u8>,
    what: &str,
    arrays: &Arrays,
    line: u32,
    cell: u16,
) -> Result<(), AllocError>
    ensures { OnOk result (text.new.items ≡ text.old.items
        ++ (what.now ++ cell_text (arrays_of (declarations_of arrays.now)) cell
        ++ line_text line)) }
{
    text.extend_from_slice(what.as_bytes())?;
    add_cell(alloc, text, arrays, cell)?;
    add_line(alloc, text, line)
}

// Adds a cell as its array's name and its index in it.
fn add_cell(alloc: Global, text: &mut Vec<u8>, arrays: &Arrays, cell: u16) -> Result<(), AllocError>
    ensures { OnOk result (text.new.items
        ≡ text.old.items ++ cell_text (arrays_of (declarations_of arrays.now)) cell) }
{
    let mut index = u64::from(cell);
    for array in &arrays.declarations {
        let length = array.length.unsigned_abs();
        if index < length {
            return add_place(alloc, text, &array.name, index);
        }
        index -= length;
    }
    Ok(())
}

// Adds an array's name with an index.
fn add_place(alloc: Global, text: &mut Vec<u8>, array: &Name, index: u64) -> Result<(), AllocError>
    ensures { OnOk result (text.new.items
        ≡ text.old.items ++ (array.now ++ codes "[" ++ decimal index ++ codes "]")) }
{
    text.extend_from_slice(array.as_bytes())?;
    text.extend_from_slice(b"[".as_slice())?;
    add_count(alloc, text, index, "]")
}

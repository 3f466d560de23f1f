//! From a text to the lines of its arrays.
ghost use Rattle.std.specs.Prelude.{◌≡◌, ◌≤◌, length, ℕ, OnOk, IfOk, IfErr};
ghost use Rattle.array_tree.specs.Trees.{program_of};
ghost use Rattle.array_lang.specs.Spelled.{Spells};
ghost use Rattle.array_meaning.specs.Bounds.{most_bytes};
ghost use Rattle.disjoint_check.specs.Meaning.{IsAcceptedFor};
ghost use Rattle.array_tasks.specs.Texts.{AreLinesOf, HasNoLines, NamesRefusal, PrintsSyntax, PrintsRefusal};

use crate::error::TextError;
use crate::program::run_program_observed;
use array_eval::write_arrays;
use array_lang::{SyntaxFault, parse};
use array_tree::Program;
use disjoint_check::{Accepted, CheckFault, check};
use error_text::{refusal_line, syntax_line};
use std::alloc::Global;
use std::sync::Wait;
use std::thread::Threads;
use task_sites::{Observer, Unobserved};

/// The most bytes of a program's text.
pub const MOST_BYTES: usize = 65_536;

/// Runs the program that a text spells on `harts` harts, 1 to 64, and returns the lines of its arrays: those of the one-thread
/// meaning, which `lithe_run solo` prints.
///
/// # Errors
///
/// `TooLong` if the text has more than 65,536 bytes. `Syntax` if it spells no program, and `Refused` if the program isn't accepted
/// for one hart, each with the line that `lithe_run solo` prints. `HartCount` if the number of harts is out of range. `OutOfMemory`
/// if an allocation fails.
///
/// # Memory
///
/// The program, what the check needs, the run, and the lines.
pub fn lines_of<R: Threads + Wait + Sync>(
    rt: &R,
    alloc: Global,
    harts: u8,
    text: &[u8],
) -> Result<Vec<u8>, TextError>
    ensures lines { IfOk result (λ lines. AreLinesOf text.now lines.items) }
    ensures error { IfErr result (HasNoLines harts text.now) }
{
    let unobserved = Unobserved::new(rt);
    lines_observed::<Unobserved<'_, R>>(&unobserved, alloc, harts, text)
}

/// Does the same as [`lines_of`], with an observer, as [`run_program_observed`](crate::run_program_observed).
///
/// # Errors
///
/// As those of [`lines_of`].
///
/// # Memory
///
/// As that of [`lines_of`].
pub fn lines_observed<R: Threads + Observer + Sync>(
    rt: &R,
    alloc: Global,
    harts: u8,
    text: &[u8],
) -> Result<Vec<u8>, TextError>
    ensures lines { IfOk result (λ lines. AreLinesOf text.now lines.items) }
    ensures error { IfErr result (HasNoLines harts text.now) }
{
    let program = parsed(alloc, text)?;
    let accepted = accepted(alloc, &program)?;
    let store = run_program_observed(rt, alloc, harts, &accepted)?;
    Ok(write_arrays(alloc, accepted.program(), &store)?)
}

// The program that a text spells.
fn parsed(alloc: Global, text: &[u8]) -> Result<Program, TextError>
    ensures short { OnOk result (length text.now ≤ most_bytes) }
    ensures spelled { IfOk result (λ program. Spells text.now (program_of program)) }
    ensures error { (harts : ℕ) → IfErr result (HasNoLines harts text.now) }
{
    if text.len() > MOST_BYTES {
        return Err(TextError::TooLong);
    }
    match parse(alloc, text) {
        Ok(program) => Ok(program),
        Err(fault) => Err(syntax_error(alloc, fault)),
    }
}

// The error of a text that spells no program.
fn syntax_error(alloc: Global, fault: SyntaxFault) -> TextError
    ensures { PrintsSyntax fault result }
{
    if fault == SyntaxFault::Memory {
        return TextError::OutOfMemory;
    }
    match syntax_line(alloc, fault) {
        Ok(line) => TextError::Syntax(line),
        Err(_) => TextError::OutOfMemory,
    }
}

// The program, accepted for one hart. Why one: the limit for more harts is that of a journal, which a run by tasks has none of.
fn accepted<'p>(alloc: Global, program: &'p Program) -> Result<Accepted<'p>, TextError>
    ensures program { IfOk result (λ accepted. accepted.program ≡ program.now) }
    ensures accepted { OnOk result (IsAcceptedFor (program_of program.now) 1) }
    ensures error { IfErr result (NamesRefusal (program_of program.now)) }
{
    match check(alloc, program, 1) {
        Ok(accepted) => Ok(accepted),
        Err(fault) => Err(refusal_error(alloc, program, fault)),
    }
}

// The error of a program that isn't accepted.
fn refusal_error(alloc: Global, program: &Program, fault: CheckFault) -> TextError
    ensures { PrintsRefusal (program_of program.now) fault result }
{
    if fault == CheckFault::Memory {
        return TextError::OutOfMemory;
    }
    match refusal_line(alloc, program, fault) {
        Ok(line) => TextError::Refused(line),
        Err(_) => TextError::OutOfMemory,
    }
}

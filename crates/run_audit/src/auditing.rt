//! The audit.
ghost use Rattle.std.specs.Prelude.{◌≡◌, ◌≤◌, ◌+◌, length, Ok, Err, IfOk, MatchResult};
ghost use Rattle.array_tree.specs.Trees.{declarations_of, program_of};
ghost use Rattle.transfer_table.specs.Plan.{site_count, most_entries};
ghost use Rattle.array_meaning.specs.Stores.{AreSized, arrays_of};
ghost use Rattle.array_meaning.specs.Work.{final_store};
ghost use Rattle.array_eval.specs.ArrayText.{array_text};
ghost use Rattle.journal_text.specs.Reading.{lines_of};
ghost use Rattle.journal_text.specs.Seen.{Reads};
ghost use Rattle.run_audit.specs.Audit.{compared, earliest, verdict_of, reported_behind, audited, audit_of};
ghost use Rattle.run_audit.specs.Found.{compared_seen, IsWithin};
ghost use Rattle.run_audit.specs.Parts.{most_audited};

use crate::verdict::Verdict;
use array_eval::{run_one, write_arrays};
use array_tree::Program;
use disjoint_check::Accepted;
use journal_text::{TextFault, cut_line, read_entries};
use std::alloc::{AllocError, Global};
use transfer_table::{Entries, Plan, first_fault};

/// The verdict on an output of at most 4,194,304 bytes for the program.
///
/// It compares the array lines first, as bytes. Then it checks the journal by the sites that are meant to be entered: `meant`
/// has a flag for each site, at index `s - 1` for site `s`.
///
/// # Errors
///
/// The first error of the output's text after the array lines, with its line in the output. `TextFault::Memory` if an
/// allocation fails.
///
/// # Memory
///
/// It allocates the array lines and the journal.
pub fn audit(
    alloc: Global,
    accepted: &Accepted<'_>,
    meant: &[bool],
    output: &[u8],
) -> Result<Verdict, TextFault>
    requires short { length output.now ≤ most_audited }
    requires meant { length meant.now ≡ site_count accepted.now.plan }
    ensures { Reads (λ verdict. verdict) (audit_of accepted.now.plan meant.now
        (array_text (program_of accepted.now.program)
        (final_store (program_of accepted.now.program))) output.now) result }
{
    audit_by(alloc, accepted.program(), accepted.plan(), meant, output)
}

/// The verdict on an output of at most 4,194,304 bytes, by a program and a plan that need not be an accepted program's.
///
/// Each array of the program must have a cell, and all together at most 4,096. It compares the array lines first, as bytes. Then
/// it checks the journal by the sites that are meant to be entered: `meant` has a flag for each site of the plan, at index
/// `s - 1` for site `s`.
///
/// # Errors
///
/// The first error of the output's text. Lines are counted from 1 in the output.
///
/// - `TextFault::BadLine` if an array line is missing, or a line of the journal lacks its form or its newline.
/// - `TextFault::BadNumber` if a number in a line of the journal is wrong.
/// - `TextFault::WrongCount` if the number of entries differs from that in the journal's first line.
/// - `TextFault::Memory` if an allocation fails.
///
/// # Memory
///
/// It allocates the store and the array lines of the program, the words and the entries of the journal, and a `Board` that checks
/// the entries.
pub fn audit_by(
    alloc: Global,
    program: &Program,
    plan: &Plan,
    meant: &[bool],
    output: &[u8],
) -> Result<Verdict, TextFault>
    requires short { length output.now ≤ most_audited }
    requires sized { AreSized (arrays_of (declarations_of program.now.arrays)) }
    requires meant { length meant.now ≡ site_count plan.now }
    ensures { Reads (λ verdict. verdict) (audit_of plan.now meant.now
        (array_text (program_of program.now) (final_store (program_of program.now))) output.now)
        result }
{
    let wanted = wanted_lines(alloc, program)?;
    audit_against(alloc, plan, meant, &wanted, output)
}

// The array lines of the program, by the one-thread evaluator. Why: a verdict then needs no harts.
fn wanted_lines(alloc: Global, program: &Program) -> Result<Vec<u8>, AllocError>
    requires { AreSized (arrays_of (declarations_of program.now.arrays)) }
    ensures { IfOk result (λ text. text.items ≡ array_text (program_of program.now)
        (final_store (program_of program.now))) }
{
    let store = run_one(alloc, program)?;
    write_arrays(alloc, program, &store)
}

// The verdict by the wanted array lines.
fn audit_against(
    alloc: Global,
    plan: &Plan,
    meant: &[bool],
    wanted: &[u8],
    output: &[u8],
) -> Result<Verdict, TextFault>
    requires short { length output.now ≤ most_audited }
    requires meant { length meant.now ≡ site_count plan.now }
    ensures { Reads (λ verdict. verdict)
        (audit_of plan.now meant.now wanted.now output.now) result }
{
    let found = compared(wanted, output)?;
    audited(alloc, plan, meant, &found)
}

/// The result of comparing array lines: the first line that differs, their number, and the text after them.
#[derive(Clone, Copy)]
pub struct ArrayLines<'t> {
    pub differs: Option<u32>,
    pub lines: u32,
    pub rest: &'t [u8],
}

// Compares the array lines.
fn compared<'t>(wanted: &[u8], output: &'t [u8]) -> Result<ArrayLines<'t>, TextFault>
    requires { length output.now ≤ most_audited }
    ensures first { MatchResult result
        (λ found. compared 0 (lines_of wanted.now) (lines_of output.now) ≡ Ok (compared_seen found))
        (λ fault. compared 0 (lines_of wanted.now) (lines_of output.now) ≡ Err fault) }
    ensures room { IfOk result (λ found. found.lines + length found.rest.now ≤ length output.now) }
{
    let (mut differs, mut lines, mut rest, mut left) = (None, 0u32, output, wanted);
    while let Some((wanted, more)) = cut_line(left) {
        let Some((found, after)) = cut_line(rest) else {
            return Err(TextFault::BadLine { line: lines + 1 });
        };
        lines += 1;
        differs = first_difference(differs, lines, wanted, found);
        rest = after;
        left = more;
    }
    Ok(ArrayLines {
        differs,
        lines,
        rest,
    })
}

// The first line that differs, if this line is compared last.
fn first_difference(differs: Option<u32>, line: u32, wanted: &[u8], found: &[u8]) -> Option<u32>
    ensures { result ≡ earliest differs line wanted.now found.now }
{
    match differs {
        Some(first) => Some(first),
        None => { if found == wanted { None } else { Some(line) } }
    }
}

// The verdict on compared lines and the journal after them.
fn audited(
    alloc: Global,
    plan: &Plan,
    meant: &[bool],
    found: &ArrayLines<'_>,
) -> Result<Verdict, TextFault>
    requires short { found.now.lines + length found.now.rest.now ≤ most_audited }
    requires meant { length meant.now ≡ site_count plan.now }
    ensures { Reads (λ verdict. verdict)
        (audited plan.now meant.now (compared_seen found.now)) result }
{
    match read_entries(alloc, plan, found.rest) {
        Ok(list) => Ok(verdict(alloc, plan, meant, found.differs, &list)?),
        Err(fault) => Err(reported_behind(fault, found.lines)),
    }
}

// The fault, with its line counted in the output.
fn reported_behind(fault: TextFault, lines: u32) -> TextFault
    requires few { lines ≤ most_audited }
    requires within { IsWithin (most_audited + 1) fault }
    ensures { result ≡ reported_behind lines fault }
{
    match fault {
        TextFault::BadLine { line } => TextFault::BadLine { line: line + lines },
        TextFault::BadNumber { line } => TextFault::BadNumber { line: line + lines },
        fault => fault,
    }
}

// The verdict on the entries, after the array lines were read.
fn verdict(
    alloc: Global,
    plan: &Plan,
    meant: &[bool],
    differs: Option<u32>,
    list: &Entries,
) -> Result<Verdict, AllocError>
    requires few { length list.now ≤ most_entries }
    requires meant { length meant.now ≡ site_count plan.now }
    ensures { IfOk result
        (λ verdict. verdict ≡ verdict_of plan.now meant.now differs list.now) }
{
    if let Some(line) = differs {
        return Ok(Verdict::Differs(line));
    }
    let entries = list.as_slice();
    match first_fault(alloc, plan, meant, entries)? {
        Some(fault) => Ok(Verdict::Illegal(fault)),
        None => Ok(Verdict::Legal(entries.len() as u32)),
    }
}

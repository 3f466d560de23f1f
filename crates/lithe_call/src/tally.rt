//! From bytes to the output of a program whose branches and members add into one cell.
ghost use Rattle.std.specs.Prelude.{◌≡◌, ◌≤◌, IfOk, IfErr, OnOk, length, None};
ghost use Rattle.array_tree.specs.Trees.{program_of};
ghost use Rattle.array_meaning.specs.Bounds.{most_bytes};
ghost use Rattle.disjoint_check.specs.Meaning.{HasMeaningFor};
ghost use Rattle.spread_laws.specs.Faults.{spread_fault_of};
ghost use Rattle.spread_laws.specs.Served.{HasMeaning, IsTallyKept};
ghost use Rattle.spread_laws.specs.Spread.{spread_of};
ghost use Rattle.command_words.specs.declared.command.Command.TheVariants.{Tally};
ghost use Rattle.lithe_call.specs.Faults.{IsNoOutput, PrintsUntallied};
ghost use Rattle.lithe_call.specs.Lines.{PrintsTally};
ghost use Rattle.lithe_call.specs.Output.{IsAnswer, IsRunOutput};

use crate::answer::{Answer, Ending};
use crate::fault::Fault;
use crate::program::{checked, parsed, refusal};
use crate::run::outcome;
use array_eval::{count_cells, write_arrays};
use array_tree::Program;
use disjoint_check::{Accepted, check_meaning};
use error_text::tally_line;
use journal_text::write_entries;
use outside_io::Gate;
use std::alloc::{AllocError, Global};
use std::sync::Wait;
use std::thread::Threads;
use tally_cells::{TallyFault, first_cells, spread};

/// The output of `tally` for the program that the bytes spell. `harts` is 1 to 16.
///
/// # Errors
///
/// `Fault::Syntax` if the bytes spell no program. `Refused` if its branches and members can't have rows of their own, or the
/// program with rows isn't accepted. `Memory` if an allocation fails.
///
/// # Memory
///
/// It allocates the program, the program with rows, its run and the output.
#[tactic(auto, using(crate::proofs::Causes::tally_nothing, crate::proofs::Tallying::untallied_line, crate::proofs::Tallying::rows_no_output))]
pub fn tallied<R: Threads + Wait + Sync, G: Gate>(
    rt: &R,
    alloc: Global,
    gate: &G,
    harts: u8,
    bytes: &[u8],
) -> Result<Answer, Fault>
    requires short { length bytes.now ≤ most_bytes }
    requires some_hart { 1 ≤ harts }
    requires few_harts { harts ≤ 16 }
    ensures output { IfOk result (IsAnswer (Tally harts) bytes.now) }
    ensures fault { IfErr result (IsNoOutput (Tally harts) bytes.now) }
{
    let program = parsed(alloc, bytes)?;
    let spread = with_rows(alloc, harts, &program)?;
    let accepted = checked(alloc, &spread, harts)?;
    let text = sums(rt, alloc, gate, &program, &accepted)?;
    Ok(Answer {
        text,
        ending: Ending::Written,
    })
}

/// The program in which each branch or member adds into a row of its own. `harts` is 1 to 16.
///
/// # Errors
///
/// `Fault::Refused` if the program has no meaning on `harts` harts, or its branches and members can't have rows of their own.
/// `Memory` if an allocation fails.
///
/// # Memory
///
/// It allocates a copy of the program.
pub fn with_rows(alloc: Global, harts: u8, program: &Program) -> Result<Program, Fault>
    requires some_hart { 1 ≤ harts }
    requires few_harts { harts ≤ 16 }
    ensures spread { IfOk result (λ t. program_of t ≡ spread_of (program_of program.now)) }
    ensures kept { IfOk result (λ t. IsTallyKept (program_of program.now) (program_of t)) }
    ensures meaning { OnOk result (HasMeaningFor (program_of program.now) harts) }
    ensures shaped { OnOk result (spread_fault_of (program_of program.now) ≡ None) }
    ensures fault { IfErr result (PrintsUntallied harts (program_of program.now)) }
{
    if let Err(fault) = check_meaning(alloc, program, harts) {
        return Err(refusal(alloc, program, fault));
    }
    match spread(alloc, program) {
        Ok(spread) => Ok(spread),
        Err(fault) => Err(tally_fault(alloc, fault)),
    }
}

// The fault of a program that can't be spread.
fn tally_fault(alloc: Global, fault: TallyFault) -> Fault
    ensures { PrintsTally fault result }
{
    if fault == TallyFault::Memory {
        return Fault::Memory;
    }
    match tally_line(alloc, fault) {
        Ok(line) => Fault::Refused(line),
        Err(_) => Fault::Memory,
    }
}

// The arrays of the given program, and the journal of a run of the program with rows.
fn sums<R: Threads + Wait + Sync, G: Gate>(
    rt: &R,
    alloc: Global,
    gate: &G,
    program: &Program,
    accepted: &Accepted<'_>,
) -> Result<Vec<u8>, AllocError>
    requires meaning { HasMeaning (program_of program.now) }
    requires kept { IsTallyKept (program_of program.now) (program_of accepted.now.program) }
    ensures { IfOk result (λ text.
        IsRunOutput (program_of program.now) accepted.now.plan.harts text.items) }
{
    let outcome = outcome(rt, alloc, gate, accepted)?;
    let cells = count_cells(&program.arrays);
    let store = first_cells(alloc, &outcome.store, cells as u16)?;
    let mut text = write_arrays(alloc, program, &store)?;
    let entries = write_entries(alloc, accepted.plan(), outcome.journal.entries())?;
    text.extend_from_slice(&entries)?;
    Ok(text)
}

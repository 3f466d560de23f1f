//! `run`, `solo` and `make`: the commands that run a program unchanged.
ghost use Rattle.std.specs.Prelude.{◌≡◌, ◌≤◌, ℕ, List, IfOk, IfErr, length};
ghost use Rattle.array_tree.specs.Trees.{program_of};
ghost use Rattle.command_words.specs.declared.command.Command.TheVariants.{Run, Solo, Make};
ghost use Rattle.lithe_call.specs.Output.{IsAnswer, IsRunOutput, IsSummary};
ghost use Rattle.lithe_call.specs.Faults.{IsNoOutput};
ghost use Rattle.array_meaning.specs.Bounds.{most_bytes};
ghost use Rattle.array_meaning.specs.Work.{final_store};
ghost use Rattle.array_eval.specs.ArrayText.{array_text};
ghost use Rattle.hart_loop.specs.Outcomes.{IsOutcome};

use crate::answer::{Answer, Ending};
use crate::fault::Fault;
use crate::program::{checked, parsed};
use crate::summing::write_summary;
use array_eval::{run_one, write_arrays};
use disjoint_check::Accepted;
use hart_loop::{Outcome, run_alone, run_harts};
use journal_text::write_entries;
use outside_io::Gate;
use program_maker::made_text;
use std::alloc::{AllocError, Global};
use std::sync::Wait;
use std::thread::Threads;

/// The output of `run` for the program that the bytes spell. `harts` is 1 to 16. The errors are `Syntax` if the bytes spell no
/// program, `Refused` if the program isn't accepted, and `Memory`.
#[tactic(auto, using(crate::proofs::Causes::run_nothing, crate::proofs::Causes::run_refused))]
pub(crate) fn ran<R: Threads + Wait + Sync, G: Gate>(
    rt: &R,
    alloc: Global,
    gate: &G,
    harts: u8,
    bytes: &[u8],
) -> Result<Answer, Fault>
    requires short { length bytes.now ≤ most_bytes }
    requires some_hart { 1 ≤ harts }
    requires few_harts { harts ≤ 16 }
    ensures output { IfOk result (IsAnswer (Run harts) bytes.now) }
    ensures fault { IfErr result (IsNoOutput (Run harts) bytes.now) }
{
    let program = parsed(alloc, bytes)?;
    let accepted = checked(alloc, &program, harts)?;
    let outcome = outcome(rt, alloc, gate, &accepted)?;
    Ok(Answer {
        text: run_text(alloc, &accepted, &outcome)?,
        ending: Ending::Written,
    })
}

/// The output of `solo` for the program that the bytes spell. The errors are those of `ran`.
#[tactic(auto, using(crate::proofs::Causes::solo_nothing, crate::proofs::Causes::solo_refused))]
pub(crate) fn ran_solo(alloc: Global, bytes: &[u8]) -> Result<Answer, Fault>
    requires short { length bytes.now ≤ most_bytes }
    ensures output { IfOk result (IsAnswer Solo bytes.now) }
    ensures fault { IfErr result (IsNoOutput Solo bytes.now) }
{
    let program = parsed(alloc, bytes)?;
    let accepted = checked(alloc, &program, 1)?;
    Ok(Answer {
        text: arrays(alloc, &accepted)?,
        ending: Ending::Written,
    })
}

/// The output of `make`, which has no input. `size` is 1 to 40, `harts` 1 to 16. The errors are `Refused` and `Memory`.
#[tactic(auto, using(crate::proofs::Endings::made_no_syntax, crate::proofs::Endings::made_refused))]
pub(crate) fn ran_made<R: Threads + Wait + Sync, G: Gate>(
    rt: &R,
    alloc: Global,
    gate: &G,
    seed: u64,
    size: u8,
    harts: u8,
) -> Result<Answer, Fault>
    requires some_size { 1 ≤ size }
    requires small_size { size ≤ 40 }
    requires some_hart { 1 ≤ harts }
    requires few_harts { harts ≤ 16 }
    ensures output { (bytes : List ℕ) → IfOk result (IsAnswer (Make seed size harts) bytes) }
    ensures fault { (bytes : List ℕ) → IfErr result (IsNoOutput (Make seed size harts) bytes) }
{
    // Why the printed text is run: a refusal then has the lines of that text.
    let spelling = made_text(alloc, seed, size)?;
    let program = parsed(alloc, &spelling)?;
    let accepted = checked(alloc, &program, harts)?;
    Ok(Answer {
        text: summary(rt, alloc, gate, &accepted)?,
        ending: Ending::Written,
    })
}

// The arrays as the one-thread meaning leaves them.
fn arrays(alloc: Global, accepted: &Accepted<'_>) -> Result<Vec<u8>, AllocError>
    ensures { IfOk result (λ text. text.items ≡ array_text (program_of accepted.now.program)
        (final_store (program_of accepted.now.program))) }
{
    let program = accepted.program();
    let store = run_one(alloc, program)?;
    write_arrays(alloc, program, &store)
}

/// The arrays and the journal of a run's outcome.
pub(crate) fn run_text(
    alloc: Global,
    accepted: &Accepted<'_>,
    outcome: &Outcome,
) -> Result<Vec<u8>, AllocError>
    requires { IsOutcome accepted.now outcome.now }
    ensures { IfOk result (λ text.
        IsRunOutput (program_of accepted.now.program) accepted.now.plan.harts text.items) }
{
    let mut text = write_arrays(alloc, accepted.program(), &outcome.store)?;
    let entries = write_entries(alloc, accepted.plan(), outcome.journal.entries())?;
    text.extend_from_slice(&entries)?;
    Ok(text)
}

// The summary of a run.
fn summary<R: Threads + Wait + Sync, G: Gate>(
    rt: &R,
    alloc: Global,
    gate: &G,
    accepted: &Accepted<'_>,
) -> Result<Vec<u8>, AllocError>
    ensures { IfOk result (λ text.
        IsSummary (program_of accepted.now.program) accepted.now.plan.harts text.items) }
{
    let outcome = outcome(rt, alloc, gate, accepted)?;
    let entries = outcome.journal.entries();
    write_summary(
        alloc,
        accepted.program(),
        accepted.plan(),
        &outcome.store,
        entries,
    )
}

/// Runs the program on the harts of its plan. A single hart never blocks.
pub(crate) fn outcome<R: Threads + Wait + Sync, G: Gate>(
    rt: &R,
    alloc: Global,
    gate: &G,
    accepted: &Accepted<'_>,
) -> Result<Outcome, AllocError>
    ensures { IfOk result (IsOutcome accepted.now) }
{
    if accepted.plan().harts() == 1 {
        run_alone(alloc, accepted)
    } else {
        run_harts(rt, alloc, accepted, gate)
    }
}

//! From bytes to the output of a program whose members overtake.
ghost use Rattle.std.specs.Prelude.{◌≤◌, IfOk, IfErr, length};
ghost use Rattle.array_tree.specs.Trees.{program_of};
ghost use Rattle.array_meaning.specs.Bounds.{most_bytes};
ghost use Rattle.command_words.specs.declared.command.Command.TheVariants.{Pipe};
ghost use Rattle.lithe_call.specs.Faults.{IsNoOutput};
ghost use Rattle.lithe_call.specs.Lines.{PrintsCrossing};
ghost use Rattle.lithe_call.specs.Output.{IsAnswer};

use crate::answer::{Answer, Ending};
use crate::fault::Fault;
use crate::program::{checked, parsed};
use crate::run::run_text;
use array_tree::Program;
use error_text::crossing_line;
use hart_loop::run_piped;
use outside_io::Gate;
use pipe_walk::{PipeFault, pipe_check};
use std::alloc::Global;
use std::sync::Wait;
use std::thread::Threads;

/// The output of `pipe` for the program that the bytes spell. `harts` is 1 to 16.
///
/// # Errors
///
/// `Fault::Syntax` if the bytes spell no program. `Refused` if the program isn't accepted, or two of its pieces cross. `Memory`
/// if an allocation fails.
///
/// # Memory
///
/// It allocates the program, its run and the output.
#[tactic(auto, using(crate::proofs::Causes::pipe_nothing, crate::proofs::Piping::check_no_output))]
pub fn piped<R: Threads + Wait + Sync, G: Gate>(
    rt: &R,
    alloc: Global,
    gate: &G,
    harts: u8,
    bytes: &[u8],
) -> Result<Answer, Fault>
    requires short { length bytes.now ≤ most_bytes }
    requires some_hart { 1 ≤ harts }
    requires few_harts { harts ≤ 16 }
    ensures output { IfOk result (IsAnswer (Pipe harts) bytes.now) }
    ensures fault { IfErr result (IsNoOutput (Pipe harts) bytes.now) }
{
    let program = parsed(alloc, bytes)?;
    let accepted = checked(alloc, &program, harts)?;
    if let Err(fault) = pipe_check(alloc, &accepted) {
        return Err(crossing_fault(alloc, &program, fault));
    }
    let outcome = run_piped(rt, alloc, &accepted, gate)?;
    Ok(Answer {
        text: run_text(alloc, &accepted, &outcome)?,
        ending: Ending::Written,
    })
}

/// The fault of a program with a crossing of two pieces.
///
/// # Memory
///
/// It allocates the fault's line. If that fails, it returns `Fault::Memory`.
pub fn crossing_fault(alloc: Global, program: &Program, fault: PipeFault) -> Fault
    ensures { PrintsCrossing (program_of program.now) fault result }
{
    if fault == PipeFault::Memory {
        return Fault::Memory;
    }
    match crossing_line(alloc, program, fault) {
        Ok(line) => Fault::Refused(line),
        Err(_) => Fault::Memory,
    }
}

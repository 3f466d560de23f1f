//! From bytes to the verdict on the output after their program.
ghost use Rattle.std.specs.Prelude.{◌≡◌, ◌≤◌, ◌++◌, ◌∷◌, [], length, IfOk, IfErr, Result, Ok, Err};
ghost use Rattle.array_meaning.specs.Bounds.{most_bytes};
ghost use Rattle.command_words.specs.declared.command.Command.TheVariants.{Audit};
ghost use Rattle.run_audit.specs.Parts.{most_audited};
ghost use Rattle.lithe_call.specs.Auditing.{AreFound, status_of_ending, status_by};
ghost use Rattle.lithe_call.specs.Output.{IsAnswer};
ghost use Rattle.lithe_call.specs.Faults.{IsNoOutput, HaveNoVerdict};
ghost use Rattle.lithe_call.specs.Lines.{PrintsText};

use crate::answer::{Answer, Ending};
use crate::command::MOST_BYTES;
use crate::fault::Fault;
use crate::program::{checked, parsed};
use entered_sites::entered_by;
use journal_text::TextFault;
use run_audit::{Verdict, audit, parts_of, text_fault_line, verdict_line};
use std::alloc::Global;

/// The line of the verdict on the output after a program. `harts` is 1 to 16.
///
/// # Errors
///
/// `Fault::TooLong` if the program part is longer than its limit. `Syntax` if it spells no program, or the output's text is no
/// output; an input without a line `%%` has no program part, so it is `Syntax` whatever its length. `Refused` if the program
/// isn't accepted. `Memory` if an allocation fails.
///
/// # Memory
///
/// It allocates the program, the array lines, the journal and the line.
pub fn audited(alloc: Global, harts: u8, bytes: &[u8]) -> Result<Answer, Fault>
    requires short { length bytes.now ≤ most_audited }
    requires some_hart { 1 ≤ harts }
    requires few_harts { harts ≤ 16 }
    ensures output { IfOk result (IsAnswer (Audit harts) bytes.now) }
    ensures fault { IfErr result (IsNoOutput (Audit harts) bytes.now) }
{
    let Some((first, second)) = parts_of(bytes) else {
        return Err(Fault::Syntax(b"syntax: no line %%\n".to_vec(alloc)?));
    };
    if first.len() > MOST_BYTES {
        return Err(Fault::TooLong);
    }
    let verdict = verdict(alloc, harts, first, second)?;
    let text = verdict_line(alloc, verdict)?;
    let ending = ending(verdict);
    Ok(Answer { text, ending })
}

// The ending of a command that writes the line of a verdict.
fn ending(verdict: Verdict) -> Ending
    ensures { status_of_ending result ≡ status_by verdict }
{
    match verdict {
        Verdict::Legal(_) => Ending::Written,
        Verdict::Differs(_) | Verdict::Illegal(_) => Ending::Illegal,
    }
}

// The verdict on the second part, by the program of the first.
#[tactic(auto, using(crate::proofs::Endings::syntax_no_verdict, crate::proofs::Endings::refused_no_verdict))]
fn verdict(alloc: Global, harts: u8, first: &[u8], second: &[u8]) -> Result<Verdict, Fault>
    requires short { length first.now ≤ most_bytes }
    requires short_output { length second.now ≤ most_audited }
    requires some_hart { 1 ≤ harts }
    requires few_harts { harts ≤ 16 }
    ensures found { IfOk result (λ verdict. AreFound harts verdict first.now second.now) }
    ensures fault { IfErr result (HaveNoVerdict harts first.now second.now) }
{
    let program = parsed(alloc, first)?;
    let accepted = checked(alloc, &program, harts)?;
    let entered = entered_by(alloc, &accepted)?;
    match audit(alloc, &accepted, &entered, second) {
        Ok(verdict) => Ok(verdict),
        Err(fault) => Err(text_fault(alloc, fault)),
    }
}

/// The fault of a second part that is no output's text.
///
/// # Memory
///
/// It allocates the fault's line. If that fails, it returns `Fault::Memory`.
pub fn text_fault(alloc: Global, fault: TextFault) -> Fault
    ensures { PrintsText fault result }
{
    if fault == TextFault::Memory {
        return Fault::Memory;
    }
    match text_fault_line(alloc, fault) {
        Ok(line) => Fault::Syntax(line),
        Err(_) => Fault::Memory,
    }
}

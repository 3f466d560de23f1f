//! From bytes to a program, and to one that is accepted: the beginning of each command that runs or audits a program.
ghost use Rattle.std.specs.Prelude.{◌≡◌, ◌≤◌, IfOk, IfErr, OnOk, length};
ghost use Rattle.array_tree.specs.Trees.{program_of};
ghost use Rattle.array_lang.specs.Spelled.{Spells};
ghost use Rattle.array_meaning.specs.Bounds.{most_bytes};
ghost use Rattle.disjoint_check.specs.Meaning.{IsAcceptedFor};
ghost use Rattle.lithe_call.specs.Faults.{SpellNothing, IsUnaccepted};
ghost use Rattle.lithe_call.specs.Lines.{PrintsSyntax, PrintsRefusal, ReportsSyntax, ReportsRefusal};

use crate::fault::Fault;
use array_lang::{SyntaxFault, parse};
use array_tree::Program;
use disjoint_check::{Accepted, CheckFault, check};
use error_text::{refusal_line, syntax_line};
use std::alloc::Global;

/// The program that the bytes, at most 65,536, spell.
///
/// # Errors
///
/// `Fault::Syntax` if the bytes spell no program. `Memory` if an allocation fails.
///
/// # Memory
///
/// It allocates the program, or the line of the fault.
pub fn parsed(alloc: Global, bytes: &[u8]) -> Result<Program, Fault>
    requires short { length bytes.now ≤ most_bytes }
    ensures spelled { IfOk result (λ program. Spells bytes.now (program_of program)) }
    ensures fault { IfErr result (ReportsSyntax (SpellNothing bytes.now)) }
{
    match parse(alloc, bytes) {
        Ok(program) => Ok(program),
        Err(fault) => Err(syntax_fault(alloc, fault)),
    }
}

/// The program, accepted for `harts` harts, 1 to 16.
///
/// # Errors
///
/// `Fault::Refused` if the program isn't accepted. `Memory` if an allocation fails.
///
/// # Memory
///
/// It allocates what the check needs, or the line of the fault.
pub fn checked<'p>(alloc: Global, program: &'p Program, harts: u8) -> Result<Accepted<'p>, Fault>
    requires some_hart { 1 ≤ harts }
    requires few_harts { harts ≤ 16 }
    ensures program { IfOk result (λ accepted. accepted.program ≡ program.now) }
    ensures harts { IfOk result (λ accepted. accepted.plan.harts ≡ harts) }
    ensures accepted { OnOk result (IsAcceptedFor (program_of program.now) harts) }
    ensures fault { IfErr result (ReportsRefusal (IsUnaccepted harts (program_of program.now))) }
{
    match check(alloc, program, harts) {
        Ok(accepted) => Ok(accepted),
        Err(fault) => Err(refusal(alloc, program, fault)),
    }
}

// The fault of a text that spells no program. If the fault's line can't be allocated, it is `Memory`.
fn syntax_fault(alloc: Global, fault: SyntaxFault) -> Fault
    ensures { PrintsSyntax fault result }
{
    if fault == SyntaxFault::Memory {
        return Fault::Memory;
    }
    match syntax_line(alloc, fault) {
        Ok(line) => Fault::Syntax(line),
        Err(_) => Fault::Memory,
    }
}

/// The fault of a program that isn't accepted. If the fault's line can't be allocated, it is `Memory`.
pub(crate) fn refusal(alloc: Global, program: &Program, fault: CheckFault) -> Fault
    ensures { PrintsRefusal (program_of program.now) fault result }
{
    if fault == CheckFault::Memory {
        return Fault::Memory;
    }
    match refusal_line(alloc, program, fault) {
        Ok(line) => Fault::Refused(line),
        Err(_) => Fault::Memory,
    }
}

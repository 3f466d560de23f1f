//! The lines of an audit.
ghost use Rattle.std.specs.Prelude.{◌≤◌};

use disjoint_check::check;
use journal_text::TextFault;
use language_tests::programs::parsed;
use run_audit::{audit, text_fault_line, verdict_line};
use std::alloc::Global;
use std::test::Fail;

/// The line that an audit of the output writes, or the line that reports the error of its text.
pub fn reported(alloc: Global, harts: u8, program: &str, output: &[u8]) -> Result<Vec<u8>, Fail>
    requires some { 1 ≤ harts }
    requires few { harts ≤ 16 }
{
    let program = parsed(alloc, program)?;
    let accepted = check(alloc, &program, harts)?;
    if output.len() > 4_194_304 {
        return Err(Fail::new("a longer output than any input's"));
    }
    let all = vec![in alloc; true; accepted.plan().sites() as usize]?;
    match audit(alloc, &accepted, &all, output) {
        Ok(verdict) => Ok(verdict_line(alloc, verdict)?),
        Err(TextFault::Memory) => Err(Fail::new("no memory")),
        Err(fault) => Ok(text_fault_line(alloc, fault)?),
    }
}

//! The lines that an audit writes.
ghost use Rattle.std.specs.Prelude.{◌≡◌, ◌≢◌, ◌++◌, IfOk, OnOk, string_bytes};
ghost use Rattle.run_audit.specs.AuditText.{refusal_text, cause_text, verdict_text, text_fault_text};

use crate::verdict::Verdict;
use journal_text::TextFault;
use std::alloc::{AllocError, Global};
use transfer_table::{NotAdmitted, Why};

/// The line of a verdict.
///
/// # Errors
///
/// `AllocError` if an allocation fails.
///
/// # Memory
///
/// It allocates the line.
pub fn verdict_line(alloc: Global, verdict: Verdict) -> Result<Vec<u8>, AllocError>
    ensures { IfOk result (λ line. line.items ≡ verdict_text verdict) }
{
    let mut line = String::new(alloc);
    match verdict {
        Verdict::Legal(entries) => writeln!(line, "legal {entries}")?,
        Verdict::Differs(number) => writeln!(line, "illegal: line {number} differs")?,
        Verdict::Illegal(fault) => {
            let place = fault.place;
            write!(line, "illegal: entry {place}, ")?;
            add_cause(&mut line, fault.why)?;
            line.push_str("\n")?;
        }
    }
    Ok(line.into_bytes())
}

// Adds why a list isn't complete.
fn add_cause(line: &mut String, why: Why) -> Result<(), AllocError>
    ensures { OnOk result (string_bytes line.new ≡ string_bytes line.old ++ cause_text why) }
{
    match why {
        Why::Refused(refusal) => add_refusal(line, refusal),
        Why::Unfinished { site } => write!(line, "s{site} is unfinished"),
        Why::Unmeant {
            site,
            registered: true,
        } => write!(line, "s{site} isn't skipped"),
        Why::Unmeant {
            site,
            registered: false,
        } => write!(line, "s{site} is skipped"),
    }
}

// Adds why an entry is refused.
fn add_refusal(line: &mut String, refusal: NotAdmitted) -> Result<(), AllocError>
    ensures { OnOk result (string_bytes line.new ≡ string_bytes line.old ++ refusal_text refusal) }
{
    match refusal {
        NotAdmitted::NoSuchHart => line.push_str("no such hart"),
        NotAdmitted::NoSuchSite => line.push_str("no such site"),
        NotAdmitted::NotOwner { owner } => write!(line, "owner is s{owner}"),
        NotAdmitted::NotNew => line.push_str("not new"),
        NotAdmitted::NotLive => line.push_str("not live"),
        NotAdmitted::NotHome { home } => write!(line, "home is h{home}"),
        NotAdmitted::NoWish => line.push_str("no wish"),
        NotAdmitted::TooManyWished { asked } => write!(line, "asked {asked} already"),
        NotAdmitted::IsHome => line.push_str("is home"),
        NotAdmitted::HartInside { hart } => write!(line, "h{hart} is inside"),
        NotAdmitted::ChildLeft { site } => write!(line, "s{site} is left"),
        NotAdmitted::NoCount => line.push_str("count is 0"),
    }
}

/// The line that reports an error of the output's text. The fault must not be `Memory`.
///
/// # Errors
///
/// `AllocError` if an allocation fails.
///
/// # Memory
///
/// It allocates the line.
pub fn text_fault_line(alloc: Global, fault: TextFault) -> Result<Vec<u8>, AllocError>
    requires { fault ≢ TextFault.Memory }
    ensures { IfOk result (λ line. line.items ≡ text_fault_text fault) }
{
    let mut text = String::new(alloc);
    match fault {
        TextFault::BadLine { line } => writeln!(text, "syntax: bad line {line} after %%")?,
        TextFault::BadNumber { line } => {
            writeln!(text, "syntax: bad number in line {line} after %%")?
        }
        TextFault::WrongCount { said, found } => {
            writeln!(text, "syntax: {said} transfers said, {found} found")?
        }
        TextFault::Memory => unreachable!(),
    }
    Ok(text.into_bytes())
}

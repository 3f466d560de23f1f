//! The line that reports an error of the text.
ghost use Rattle.std.specs.Prelude.{◌≡◌, ◌≢◌, IfOk};
ghost use Rattle.error_text.specs.SyntaxText.{syntax_text, text_at};

use array_lang::SyntaxFault;
use std::alloc::{AllocError, Global};

/// The line of a syntax error. The fault must not be `Memory`.
///
/// # Errors
///
/// `AllocError` if an allocation fails.
///
/// # Memory
///
/// It allocates the line.
pub fn syntax_line(alloc: Global, fault: SyntaxFault) -> Result<Vec<u8>, AllocError>
    requires { fault ≢ SyntaxFault.Memory }
    ensures { IfOk result (λ line. line.items ≡ syntax_text fault) }
{
    match fault {
        SyntaxFault::NotAscii { at } => line_at(alloc, "byte ", at, " is not ASCII"),
        SyntaxFault::BadToken { at } => line_at(alloc, "no token at byte ", at, ""),
        SyntaxFault::Unexpected { at } => line_at(alloc, "unexpected at byte ", at, ""),
        SyntaxFault::NumberTooLarge { at } => line_at(alloc, "number too large at byte ", at, ""),
        SyntaxFault::TooNested { at } => line_at(alloc, "nested too deep at byte ", at, ""),
        SyntaxFault::Memory => unreachable!(),
    }
}

fn line_at(alloc: Global, before: &str, at: u32, after: &str) -> Result<Vec<u8>, AllocError>
    ensures { IfOk result (λ line. line.items ≡ text_at before.now at after.now) }
{
    let mut line = Vec::new(alloc);
    let at = at.to_string(alloc)?;
    line.extend_from_slice(b"syntax: ".as_slice())?;
    line.extend_from_slice(before.as_bytes())?;
    line.extend_from_slice(at.as_bytes())?;
    line.extend_from_slice(after.as_bytes())?;
    line.extend_from_slice(b"\n".as_slice())?;
    Ok(line)
}

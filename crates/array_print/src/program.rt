//! Programs to text.

ghost use Rattle.std.specs.Prelude.{◌≡◌, OnOk, IfOk};
ghost use Rattle.array_tree.specs.Trees.{declaration_of, program_of};
ghost use Rattle.array_print.specs.Spellings.{IsSpelledButLines, SpellsButLines};
ghost use Rattle.array_print.specs.Texts.{declaration_text, printed};
ghost use Rattle.array_print.specs.Printers.{Adds};

use crate::printer::Printer;
use array_tree::{ArrayDecl, Program};
use std::alloc::{AllocError, Global};

/// The text of a program that some text spells, up to its line numbers. Each declaration and each statement begins a line of
/// its own, after two spaces for each open block; `par {` counts as a block. Operands are in parentheses if their binding
/// strengths require it. The text spells the program up to its line numbers.
///
/// # Errors
///
/// `AllocError` if an allocation fails.
///
/// # Memory
///
/// It allocates the text, and the margin of each block.
pub fn print(alloc: Global, program: &Program) -> Result<Vec<u8>, AllocError>
    requires { IsSpelledButLines (program_of program.now) }
    ensures layout { IfOk result (λ text. text.items ≡ printed (program_of program.now)) }
    ensures spelled { IfOk result (λ text. SpellsButLines text.items (program_of program.now)) }
{
    program_text(alloc, program)
}

// The text of any program.
fn program_text(alloc: Global, program: &Program) -> Result<Vec<u8>, AllocError>
    ensures { IfOk result (λ text. text.items ≡ printed (program_of program.now)) }
{
    let mut printer = Printer::new(alloc);
    for array in &program.arrays.declarations {
        printer.declaration(array)?;
    }
    printer.statements(&program.body)?;
    Ok(printer.text)
}

impl Printer {
    // Adds the line of a declaration.
    fn declaration(&mut self, array: &ArrayDecl) -> Result<(), AllocError>
        ensures { OnOk result (Adds self.old (declaration_text (declaration_of array.now)) self.new) }
    {
        self.add(b"array ".as_slice())?;
        self.add(array.name.as_bytes())?;
        self.add(b"[".as_slice())?;
        self.number(array.length)?;
        self.add(b"];\n".as_slice())
    }
}

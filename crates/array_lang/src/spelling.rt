//! Texts to programs.

ghost use Rattle.std.specs.Prelude.{◌≡◌, ◌<◌, ◌^◌, length, IfOk, IfErr, ℕ, Some, None};
ghost use Rattle.array_tokens.specs.Lexemes.{spots};
ghost use Rattle.array_tree.specs.Trees.{program_of, ProgramTree};
ghost use Rattle.array_lang.specs.Parsing.Scan.{first_nested};
ghost use Rattle.array_lang.specs.Spelled.{Spells, HasFault, HasTokenFault, IsRead, place_of};
ghost use Rattle.array_lang.specs.Parsing.Reading.{IsWhole, IsReading};

use crate::fault::SyntaxFault;
use crate::nesting::nested_at;
use crate::program::program;
use crate::stop::Stop;
use array_tokens::{Token, tokens};
use array_tree::Program;
use std::alloc::Global;

/// Parses a text.
///
/// # Errors
///
/// The text's first error. Errors of tokens come before errors of the grammar. Of an unexpected token and a token that passes a
/// limit on nesting, the one at the smaller position is reported, and `Unexpected` at the same position. `SyntaxFault::Memory`
/// if an allocation fails.
///
/// # Memory
///
/// It allocates the tokens and the tree.
pub fn parse(alloc: Global, text: &[u8]) -> Result<Program, SyntaxFault>
    requires { length text.now < 2 ^ 32 }
    // What is read is spelled.
    ensures found { IfOk result (λ program. Spells text.now (program_of program)) }
    // What is spelled is read, unless memory runs out.
    ensures only { (p : ProgramTree) → Spells text.now p → IsRead p result }
    // Which fault it is, and where.
    ensures fault { IfErr result (HasFault text.now) }
{
    match tokens(alloc, text) {
        Err(cause) => Err(SyntaxFault::from(cause)),
        Ok(tokens) => match nested_at(&tokens) {
            None => whole(alloc, &tokens, text.len() as u32),
            Some(index) => Err(first_fault(alloc, &tokens, index)),
        },
    }
}

// The program of tokens that pass no limit; the text ends at `end`.
fn whole(alloc: Global, tokens: &[Token<'_>], end: u32) -> Result<Program, SyntaxFault>
    requires { first_nested (spots tokens.now) ≡ None }
    ensures { IsWhole (spots tokens.now) end result }
{
    match program(alloc, tokens) {
        Ok(program) => Ok(program),
        Err(Stop::Memory) => Err(SyntaxFault::Memory),
        Err(Stop::Unexpected(rest)) => Err(SyntaxFault::Unexpected {
            at: place(rest, end),
        }),
    }
}

// The first error of tokens of which this one passes a limit. Why: it reads only the tokens up to this one, which also bounds
// the parser's recursion.
fn first_fault(alloc: Global, tokens: &[Token<'_>], index: usize) -> SyntaxFault
    requires over { first_nested (spots tokens.now) ≡ Some index }
    requires within { index < length tokens.now }
    ensures { (end : ℕ) → HasTokenFault (spots tokens.now) end result }
{
    let (_, over) = tokens.split_at(index);
    let (read, _) = tokens.split_at(index + 1);
    match stop(alloc, read) {
        Ok(()) => SyntaxFault::TooNested { at: place(over, 0) },
        Err(Stop::Memory) => SyntaxFault::Memory,
        Err(Stop::Unexpected(rest)) => {
            if rest.is_empty() {
                SyntaxFault::TooNested { at: place(over, 0) }
            } else {
                SyntaxFault::Unexpected { at: place(rest, 0) }
            }
        }
    }
}

// Why the parser stops within the tokens.
fn stop<'a, 't>(alloc: Global, tokens: &'a [Token<'t>]) -> Result<(), Stop<'a, 't>>
    ensures { IsReading (spots tokens.now) result }
{
    program(alloc, tokens)?;
    Ok(())
}

// The position of the first token, or of the text's end.
fn place(rest: &[Token<'_>], end: u32) -> u32
    ensures { result ≡ place_of end (spots rest.now) }
{
    match rest.first() {
        None => end,
        Some(token) => token.at,
    }
}

//! Tokens to declarations and programs.

ghost use Rattle.std.specs.Prelude.{◌≡◌, []};
ghost use Rattle.array_tokens.specs.Lexemes.{spots};
ghost use Rattle.array_lang.specs.Parsing.FirstToken.{IsArray};
ghost use Rattle.array_lang.specs.Parsing.Reading.{IsLength, IsDeclaration, IsDeclarations, IsBody, IsProgram};

use crate::statements::statements;
use crate::stop::{Parsed, Stop, expect, expect_name, expect_number};
use array_tokens::{Kind, Sign, Token, Word};
use array_tree::{ArrayDecl, Arrays, Block, Name, Program};
use std::alloc::Global;

// The line of the word `array` at the front, and the tokens after it.
fn array_word<'a, 't>(tokens: &'a [Token<'t>]) -> Option<(u32, &'a [Token<'t>])>
    ensures { IsArray (spots tokens.now) result }
{
    let [first, rest @ ..] = tokens else {
        return None;
    };
    match first.kind {
        Kind::Word(Word::Array) => Some((first.line, rest)),
        _ => None,
    }
}

// The length of an array, up to the end of its declaration.
fn array_length<'a, 't>(tokens: &'a [Token<'t>]) -> Parsed<'a, 't, i64>
    ensures { IsLength (spots tokens.now) result }
{
    let rest = expect(tokens, Sign::OpenIndex)?;
    let (length, rest) = expect_number(rest)?;
    let rest = expect(rest, Sign::CloseIndex)?;
    let rest = expect(rest, Sign::Semicolon)?;
    Ok((length, rest))
}

// The rest of a declaration.
fn declaration<'a, 't>(
    alloc: Global,
    line: u32,
    tokens: &'a [Token<'t>],
) -> Parsed<'a, 't, ArrayDecl>
    ensures { IsDeclaration line (spots tokens.now) result }
{
    let (name, rest) = expect_name(tokens)?;
    let (length, rest) = array_length(rest)?;
    let name = Name::new(alloc, name)?;
    Ok((ArrayDecl { line, name, length }, rest))
}

fn declarations<'a, 't>(alloc: Global, tokens: &'a [Token<'t>]) -> Parsed<'a, 't, Vec<ArrayDecl>>
    ensures { IsDeclarations (spots tokens.now) result }
{
    let (mut found, mut rest) = no_declarations(alloc, tokens);
    while let Some((line, after)) = array_word(rest) {
        let (next, end) = declaration(alloc, line, after)?;
        found.push(next)?;
        rest = end;
    }
    Ok((found, rest))
}

// No declarations yet, and all tokens.
fn no_declarations<'a, 't>(
    alloc: Global,
    tokens: &'a [Token<'t>],
) -> (Vec<ArrayDecl>, &'a [Token<'t>])
    ensures found { result.0.items ≡ [] }
    ensures rest { result.1.now ≡ tokens.now }
{
    (Vec::new(alloc), tokens)
}

// The statements to the end of the tokens.
fn body<'a, 't>(alloc: Global, tokens: &'a [Token<'t>]) -> Result<Block, Stop<'a, 't>>
    ensures { IsBody (spots tokens.now) result }
{
    let (statements, rest) = statements(alloc, tokens)?;
    if rest.is_empty() {
        Ok(Block { statements })
    } else {
        Err(Stop::Unexpected(rest))
    }
}

/// The program that the tokens spell.
///
/// # Errors
///
/// `Stop`: the first token with which no program continues, a number that is too large, or an allocation failure.
///
/// # Memory
///
/// It allocates the tree.
#[tactic(auto, using(crate::proofs::Complete::settle_declaring))]
pub fn program<'a, 't>(alloc: Global, tokens: &'a [Token<'t>]) -> Result<Program, Stop<'a, 't>>
    ensures { IsProgram (spots tokens.now) result }
{
    let (declarations, rest) = declarations(alloc, tokens)?;
    let body = body(alloc, rest)?;
    Ok(Program {
        arrays: Arrays { declarations },
        body,
    })
}

//! Tokens to statements.

ghost use Rattle.std.specs.Prelude.{◌≡◌, []};
ghost use Rattle.array_tokens.specs.Lexemes.{spots};
ghost use Rattle.array_lang.specs.Parsing.Reading.{IsTarget, IsValue, IsAssign, IsBlock, IsElseBlock, IsChoice, IsLoop, IsPar, IsPhases, IsTeam, IsStatement, IsStatements};

use crate::expressions::expr;
use crate::ranges::{range, team_head};
use crate::stop::{Parsed, expect, expect_word};
use array_tokens::{Kind, Sign, Token, Word};
use array_tree::{Block, Blocks, Expr, Name, Stmt};
use std::alloc::Global;

// The index of a target, up to the sign of the assignment.
fn target<'a, 't>(alloc: Global, tokens: &'a [Token<'t>]) -> Parsed<'a, 't, Expr>
    ensures { IsTarget (spots tokens.now) result }
{
    let rest = expect(tokens, Sign::OpenIndex)?;
    let (index, rest) = expr(alloc, rest)?;
    let rest = expect(rest, Sign::CloseIndex)?;
    let rest = expect(rest, Sign::Assign)?;
    Ok((index, rest))
}

// The value of an assignment, up to its end.
fn value<'a, 't>(alloc: Global, tokens: &'a [Token<'t>]) -> Parsed<'a, 't, Expr>
    ensures { IsValue (spots tokens.now) result }
{
    let (value, rest) = expr(alloc, tokens)?;
    let rest = expect(rest, Sign::Semicolon)?;
    Ok((value, rest))
}

// The rest of an assignment to this array.
fn assignment<'a, 't>(
    alloc: Global,
    line: u32,
    name: &'t [u8],
    tokens: &'a [Token<'t>],
) -> Parsed<'a, 't, Stmt>
    ensures { IsAssign line name.now (spots tokens.now) result }
{
    let (index, rest) = target(alloc, tokens)?;
    let (value, rest) = value(alloc, rest)?;
    let array = Name::new(alloc, name)?;
    Ok((
        Stmt::Assign {
            line,
            array,
            index,
            value,
        },
        rest,
    ))
}

// The rest of a `for`.
#[cycle(statements)]
fn for_loop<'a, 't>(alloc: Global, line: u32, tokens: &'a [Token<'t>]) -> Parsed<'a, 't, Stmt>
    ensures { IsLoop line (spots tokens.now) result }
{
    let (range, rest) = range(tokens)?;
    let rest = expect(rest, Sign::OpenBlock)?;
    let (body, rest) = block(alloc, rest)?;
    let var = Name::new(alloc, range.var)?;
    Ok((
        Stmt::For {
            line,
            var,
            low: range.low,
            high: range.high,
            body,
        },
        rest,
    ))
}

// The rest of an `if`.
#[cycle(statements)]
fn choice<'a, 't>(alloc: Global, line: u32, tokens: &'a [Token<'t>]) -> Parsed<'a, 't, Stmt>
    ensures { IsChoice line (spots tokens.now) result }
{
    let (cond, rest) = expr(alloc, tokens)?;
    let rest = expect(rest, Sign::OpenBlock)?;
    let (then_block, rest) = block(alloc, rest)?;
    let (else_block, rest) = else_block(alloc, rest)?;
    Ok((
        Stmt::If {
            line,
            cond,
            then_block,
            else_block,
        },
        rest,
    ))
}

// The second block of an `if`, empty where there is none.
#[tactic(auto, using(crate::proofs::Complete::settle_closed))]
#[cycle(statements)]
fn else_block<'a, 't>(alloc: Global, tokens: &'a [Token<'t>]) -> Parsed<'a, 't, Block>
    ensures { IsElseBlock (spots tokens.now) result }
{
    match expect_word(tokens, Word::Else) {
        Err(_) => Ok((
            Block {
                statements: Vec::new(alloc),
            },
            tokens,
        )),
        Ok(rest) => {
            let rest = expect(rest, Sign::OpenBlock)?;
            block(alloc, rest)
        }
    }
}

// The rest of a `par`.
#[cycle(statements)]
fn par<'a, 't>(alloc: Global, line: u32, tokens: &'a [Token<'t>]) -> Parsed<'a, 't, Stmt>
    ensures { IsPar line (spots tokens.now) result }
{
    let rest = expect(tokens, Sign::OpenBlock)?;
    let rest = expect(rest, Sign::OpenBlock)?;
    let (first, mut rest) = block(alloc, rest)?;
    let mut blocks = Vec::new(alloc);
    blocks.push(first)?;
    'each: while let Ok(after) = expect(rest, Sign::OpenBlock) {
        let (next, end) = block(alloc, after)?;
        blocks.push(next)?;
        rest = end;
    }
    let rest = expect(rest, Sign::CloseBlock)?;
    let branches = Blocks { blocks };
    Ok((Stmt::Par { line, branches }, rest))
}

// The rest of a `team`.
#[cycle(statements)]
fn team<'a, 't>(alloc: Global, line: u32, tokens: &'a [Token<'t>]) -> Parsed<'a, 't, Stmt>
    ensures { IsTeam line (spots tokens.now) result }
{
    let (head, rest) = team_head(tokens)?;
    let (blocks, rest) = phases(alloc, rest)?;
    let var = Name::new(alloc, head.range.var)?;
    Ok((
        Stmt::Team {
            line,
            var,
            low: head.range.low,
            high: head.range.high,
            members: head.members,
            phases: Blocks { blocks },
        },
        rest,
    ))
}

// The phases of a `team`.
#[tactic(auto, using(crate::proofs::Complete::settle_phase))]
#[cycle(statements)]
fn phases<'a, 't>(alloc: Global, tokens: &'a [Token<'t>]) -> Parsed<'a, 't, Vec<Block>>
    ensures { IsPhases (spots tokens.now) result }
{
    let rest = expect(tokens, Sign::OpenBlock)?;
    let (first, mut rest) = block(alloc, rest)?;
    let mut phases = Vec::new(alloc);
    phases.push(first)?;
    'each: while let Ok(after) = expect_word(rest, Word::Barrier) {
        let after = expect(after, Sign::OpenBlock)?;
        let (next, end) = block(alloc, after)?;
        phases.push(next)?;
        rest = end;
    }
    Ok((phases, rest))
}

// A block whose `{` is read.
#[cycle(statements)]
fn block<'a, 't>(alloc: Global, tokens: &'a [Token<'t>]) -> Parsed<'a, 't, Block>
    ensures { IsBlock (spots tokens.now) result }
{
    let (statements, rest) = statements(alloc, tokens)?;
    let rest = expect(rest, Sign::CloseBlock)?;
    Ok((Block { statements }, rest))
}

// The statement that begins here, if one does.
#[cycle(statements)]
fn statement<'a, 't>(alloc: Global, tokens: &'a [Token<'t>]) -> Option<Parsed<'a, 't, Stmt>>
    ensures { IsStatement (spots tokens.now) result }
{
    let (first, rest) = tokens.split_first()?;
    match first.kind {
        Kind::Name(name) => Some(assignment(alloc, first.line, name, rest)),
        Kind::Word(Word::For) => Some(for_loop(alloc, first.line, rest)),
        Kind::Word(Word::If) => Some(choice(alloc, first.line, rest)),
        Kind::Word(Word::Par) => Some(par(alloc, first.line, rest)),
        Kind::Word(Word::Team) => Some(team(alloc, first.line, rest)),
        _ => None,
    }
}

/// The statements one after another at the front.
#[cycle(statements)]
pub fn statements<'a, 't>(alloc: Global, tokens: &'a [Token<'t>]) -> Parsed<'a, 't, Vec<Stmt>>
    ensures { IsStatements (spots tokens.now) result }
{
    let (mut found, mut rest) = no_statements(alloc, tokens);
    'each: while let Some(read) = statement(alloc, rest) {
        let (next, after) = read?;
        found.push(next)?;
        rest = after;
    }
    Ok((found, rest))
}

// No statements yet, and all tokens.
fn no_statements<'a, 't>(alloc: Global, tokens: &'a [Token<'t>]) -> (Vec<Stmt>, &'a [Token<'t>])
    ensures found { result.0.items ≡ [] }
    ensures rest { result.1.now ≡ tokens.now }
{
    (Vec::new(alloc), tokens)
}

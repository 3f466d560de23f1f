//! Tokens to expressions.

ghost use Rattle.std.specs.Prelude.{◌≡◌};
ghost use Rattle.array_tokens.specs.Lexemes.{spots};
ghost use Rattle.array_lang.specs.Parsing.FirstToken.{IsOperator};
ghost use Rattle.array_lang.specs.Parsing.Reading.{IsFactor, IsAfterName, IsTerm, IsSum, IsExpr};

use crate::operator::{Strength, operator_of};
use crate::stop::{Parsed, Stop, expect};
use array_tokens::{Kind, Sign, Token};
use array_tree::{Expr, Name, Op};
use std::alloc::Global;

// The operator of this strength at the front, and the tokens after it.
fn operator<'a, 't>(tokens: &'a [Token<'t>], strength: Strength) -> Option<(Op, &'a [Token<'t>])>
    ensures { IsOperator (spots tokens.now) strength result }
{
    let [first, rest @ ..] = tokens else {
        return None;
    };
    match operator_of(&first.kind) {
        Some((found, op)) if found == strength => Some((op, rest)),
        _ => None,
    }
}

#[cycle(expr)]
fn factor<'a, 't>(alloc: Global, tokens: &'a [Token<'t>]) -> Parsed<'a, 't, Expr>
    ensures { IsFactor (spots tokens.now) result }
{
    let Some((first, rest)) = tokens.split_first() else {
        return Err(Stop::Unexpected(tokens));
    };
    match &first.kind {
        Kind::Number(literal) => Ok((Expr::Number(literal.value()), rest)),
        Kind::Name(name) => after_name(alloc, name, rest),
        Kind::Sign(Sign::Minus) => {
            let (operand, rest) = factor(alloc, rest)?;
            Ok((Expr::Neg(Box::new(alloc, operand)?), rest))
        }
        Kind::Sign(Sign::OpenGroup) => {
            let (inner, rest) = expr(alloc, rest)?;
            let rest = expect(rest, Sign::CloseGroup)?;
            Ok((inner, rest))
        }
        _ => Err(Stop::Unexpected(tokens)),
    }
}

// The rest of a factor that begins with this name: its index, where one follows.
#[cycle(expr)]
fn after_name<'a, 't>(
    alloc: Global,
    name: &'t [u8],
    tokens: &'a [Token<'t>],
) -> Parsed<'a, 't, Expr>
    ensures { IsAfterName name.now (spots tokens.now) result }
{
    match expect(tokens, Sign::OpenIndex) {
        Err(_) => Ok((Expr::Var(Name::new(alloc, name)?), tokens)),
        Ok(rest) => {
            let (index, rest) = expr(alloc, rest)?;
            let rest = expect(rest, Sign::CloseIndex)?;
            Ok((
                Expr::Read(Name::new(alloc, name)?, Box::new(alloc, index)?),
                rest,
            ))
        }
    }
}

#[cycle(expr)]
fn term<'a, 't>(alloc: Global, tokens: &'a [Token<'t>]) -> Parsed<'a, 't, Expr>
    ensures { IsTerm (spots tokens.now) result }
{
    let (mut left, mut rest) = factor(alloc, tokens)?;
    while let Some((op, after)) = operator(rest, Strength::Product) {
        let (right, end) = factor(alloc, after)?;
        left = Expr::Binary(op, Box::new(alloc, left)?, Box::new(alloc, right)?);
        rest = end;
    }
    Ok((left, rest))
}

#[cycle(expr)]
fn sum<'a, 't>(alloc: Global, tokens: &'a [Token<'t>]) -> Parsed<'a, 't, Expr>
    ensures { IsSum (spots tokens.now) result }
{
    let (mut left, mut rest) = term(alloc, tokens)?;
    while let Some((op, after)) = operator(rest, Strength::Addition) {
        let (right, end) = term(alloc, after)?;
        left = Expr::Binary(op, Box::new(alloc, left)?, Box::new(alloc, right)?);
        rest = end;
    }
    Ok((left, rest))
}

/// The expression at the front. Comparisons don't chain.
#[cycle(expr)]
pub fn expr<'a, 't>(alloc: Global, tokens: &'a [Token<'t>]) -> Parsed<'a, 't, Expr>
    ensures { IsExpr (spots tokens.now) result }
{
    let (left, rest) = sum(alloc, tokens)?;
    let Some((op, after)) = operator(rest, Strength::Comparison) else {
        return Ok((left, rest));
    };
    let (right, rest) = sum(alloc, after)?;
    if operator(rest, Strength::Comparison).is_some() {
        return Err(Stop::Unexpected(rest));
    }
    Ok((
        Expr::Binary(op, Box::new(alloc, left)?, Box::new(alloc, right)?),
        rest,
    ))
}

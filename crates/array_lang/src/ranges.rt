//! Tokens to the heads of loops and teams.

ghost use Rattle.std.specs.Prelude.{◌≡◌};
ghost use Rattle.array_tokens.specs.Lexemes.{spots};
ghost use Rattle.array_lang.specs.Parsing.FirstToken.{IsNegated};
ghost use Rattle.array_lang.specs.Parsing.Reading.{IsBound, IsRange, IsHead};

use crate::stop::{Parsed, expect, expect_name, expect_number, expect_word};
use array_tokens::{Sign, Token, Word};

/// A variable and its bounds: from `low` to before `high`.
#[derive(Clone, Copy)]
pub struct LoopRange<'t> {
    pub var: &'t [u8],
    pub low: i64,
    pub high: i64,
}

/// What stands before the first phase of a `team`.
#[derive(Clone, Copy)]
pub struct TeamHead<'t> {
    pub range: LoopRange<'t>,
    pub members: i64,
}

// The number at the front, negated.
fn negated<'a, 't>(tokens: &'a [Token<'t>]) -> Parsed<'a, 't, i64>
    ensures { IsNegated (spots tokens.now) result }
{
    let (value, rest) = expect_number(tokens)?;
    Ok((-value, rest))
}

fn bound<'a, 't>(tokens: &'a [Token<'t>]) -> Parsed<'a, 't, i64>
    ensures { IsBound (spots tokens.now) result }
{
    match expect(tokens, Sign::Minus) {
        Ok(rest) => negated(rest),
        Err(_) => expect_number(tokens),
    }
}

/// A range, up to its upper bound.
pub fn range<'a, 't>(tokens: &'a [Token<'t>]) -> Parsed<'a, 't, LoopRange<'t>>
    ensures { IsRange (spots tokens.now) result }
{
    let (var, rest) = expect_name(tokens)?;
    let rest = expect_word(rest, Word::In)?;
    let (low, rest) = bound(rest)?;
    let rest = expect(rest, Sign::Range)?;
    let (high, rest) = bound(rest)?;
    Ok((LoopRange { var, low, high }, rest))
}

/// The head of a `team`, up to the number of members.
pub fn team_head<'a, 't>(tokens: &'a [Token<'t>]) -> Parsed<'a, 't, TeamHead<'t>>
    ensures { IsHead (spots tokens.now) result }
{
    let (range, rest) = range(tokens)?;
    let rest = expect_word(rest, Word::By)?;
    let (members, rest) = expect_number(rest)?;
    Ok((TeamHead { range, members }, rest))
}

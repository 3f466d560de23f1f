//! The limits on open braces and on the marks of one outermost expression.

ghost use Rattle.std.specs.Prelude.{◌≡◌, ◌<◌, ◌≤◌, length, IfSome};
ghost use Rattle.array_tokens.specs.Lexemes.{spots, lexeme_of};
ghost use Rattle.array_lang.specs.Nesting.{most_marks, most_open, is_mark};
ghost use Rattle.array_lang.specs.Parsing.Scan.{reach_after, depth_after, is_over, first_nested, marks_of};

use crate::operator::operator_of;
use array_tokens::{Kind, Sign, Token, Word};

// How many braces are open at once at most.
const MOST_OPEN: u32 = 32;

// How many marks an outermost expression has at most.
const MOST_MARKS: u32 = 64;

/// The context of a token: outside of expressions, after the name that begins a statement, or inside an outermost expression
/// with so many marks so far.
#[derive(Clone, Copy, PartialEq, Eq, Debug, Drop)]
pub enum Reach {
    Outside,
    Target,
    Inside(u32),
}

fn is_mark(kind: &Kind<'_>) -> bool
    ensures { result ≡ is_mark (lexeme_of kind.now) }
{
    match kind {
        Kind::Sign(Sign::OpenGroup | Sign::OpenIndex) => true,
        _ => operator_of(kind).is_some(),
    }
}

impl Reach {
    fn marks(self) -> u32
        ensures { result ≡ marks_of self }
    {
        match self {
            Reach::Inside(marks) => marks,
            _ => 0,
        }
    }

    // The context of the token after this one.
    fn after(self, kind: &Kind<'_>) -> Reach
        requires { marks_of self ≤ most_marks }
        ensures { result ≡ reach_after self (lexeme_of kind.now) }
    {
        match kind {
            Kind::Word(Word::If) | Kind::Sign(Sign::Assign) => Reach::Inside(0),
            Kind::Sign(Sign::Semicolon | Sign::OpenBlock | Sign::CloseBlock) => Reach::Outside,
            _ => match self {
                Reach::Inside(marks) => Reach::Inside(marks + u32::from(is_mark(kind))),
                Reach::Target if matches!(kind, Kind::Sign(Sign::OpenIndex)) => Reach::Inside(0),
                Reach::Outside if matches!(kind, Kind::Name(_)) => Reach::Target,
                _ => Reach::Outside,
            },
        }
    }
}

fn depth_after(depth: u32, kind: &Kind<'_>) -> u32
    requires { depth ≤ most_open }
    ensures { result ≡ depth_after depth (lexeme_of kind.now) }
{
    match kind {
        Kind::Sign(Sign::OpenBlock) => depth + 1,
        Kind::Sign(Sign::CloseBlock) => depth.saturating_sub(1),
        _ => depth,
    }
}

fn is_over(depth: u32, reach: Reach) -> bool
    ensures { result ≡ is_over depth reach }
{
    depth > MOST_OPEN || reach.marks() > MOST_MARKS
}

/// The index of the first token that passes a limit.
///
/// Why: the definition (`specs/Nesting.antt`) finds the token along the derivation. This function scans tokens alone, and its
/// contract states that it is the same token.
pub fn nested_at(tokens: &[Token<'_>]) -> Option<usize>
    ensures at { result ≡ first_nested (spots tokens.now) }
    ensures within { IfSome result (λ index. index < length tokens.now) }
{
    let mut reach = Reach::Outside;
    let mut depth = 0;
    for (index, token) in tokens.iter().enumerate() {
        depth = depth_after(depth, &token.kind);
        reach = reach.after(&token.kind);
        if is_over(depth, reach) {
            return Some(index);
        }
    }
    None
}

//! The binary operators among the tokens.

ghost use Rattle.std.specs.Prelude.{◌≡◌};
ghost use Rattle.array_tokens.specs.Lexemes.{lexeme_of};
ghost use Rattle.array_lang.specs.Grammar.{binding, operator_of};
ghost use Rattle.array_lang.specs.Parsing.FirstToken.{pull_at};

use array_tokens::{Kind, Sign};
use array_tree::Op;

/// How strongly a binary operator binds.
#[derive(Clone, Copy, PartialEq, Eq, Debug, Drop)]
pub enum Strength {
    Comparison,
    Addition,
    Product,
}

impl Strength {
    /// The strength as a number, 1 to 3. The greater one binds more strongly.
    pub fn number(self) -> u8
        ensures { result ≡ pull_at self }
    {
        match self {
            Strength::Comparison => 1,
            Strength::Addition => 2,
            Strength::Product => 3,
        }
    }
}

/// How strongly the operator binds.
pub fn binding(op: Op) -> Strength
    ensures { result ≡ binding op }
{
    match op {
        Op::Less | Op::Greater | Op::LessEq | Op::GreaterEq | Op::Equal | Op::NotEqual => {
            Strength::Comparison
        }
        Op::Add | Op::Sub => Strength::Addition,
        Op::Mul | Op::Div | Op::Rem => Strength::Product,
    }
}

/// The operator of a token, and its binding strength; `None` if the token is no binary operator.
pub fn operator_of(kind: &Kind<'_>) -> Option<(Strength, Op)>
    ensures { result ≡ operator_of (lexeme_of kind.now) }
{
    let op = match kind {
        Kind::Sign(Sign::Less) => Op::Less,
        Kind::Sign(Sign::Greater) => Op::Greater,
        Kind::Sign(Sign::LessEq) => Op::LessEq,
        Kind::Sign(Sign::GreaterEq) => Op::GreaterEq,
        Kind::Sign(Sign::Equal) => Op::Equal,
        Kind::Sign(Sign::NotEqual) => Op::NotEqual,
        Kind::Sign(Sign::Plus) => Op::Add,
        Kind::Sign(Sign::Minus) => Op::Sub,
        Kind::Sign(Sign::Star) => Op::Mul,
        Kind::Sign(Sign::Slash) => Op::Div,
        Kind::Sign(Sign::Percent) => Op::Rem,
        _ => return None,
    };
    Some((binding(op), op))
}

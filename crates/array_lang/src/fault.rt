//! Why a text is no program.

use array_tokens::TokenFault;

/// The first error of a text. Positions are bytes, counted from 0.
#[derive(Clone, Copy, PartialEq, Eq, Debug, Drop)]
pub enum SyntaxFault {
    /// The first byte of 128 or more, anywhere in the text.
    NotAscii { at: u32 },
    /// The first position where no token begins.
    BadToken { at: u32 },
    /// The first token such that no program begins with the tokens up to and including it, or the end of a text
    /// that is right so far but not whole.
    Unexpected { at: u32 },
    /// The first digit of a number above 9223372036854775807.
    NumberTooLarge { at: u32 },
    /// An allocation failed.
    Memory,
    /// The 65th mark of one outermost expression, or the 33rd `{` that is open at once.
    TooNested { at: u32 },
}

impl From<TokenFault> for SyntaxFault {
    ghost use Rattle.std.specs.Prelude.{◌≡◌};
    ghost use Rattle.array_lang.specs.Spelled.{cutting_fault};

    ghost from_gives = { λ cause fault. fault ≡ cutting_fault cause };

    fn from(cause: TokenFault) -> Self {
        match cause {
            TokenFault::NotAscii { at } => SyntaxFault::NotAscii { at },
            TokenFault::BadToken { at } => SyntaxFault::BadToken { at },
            TokenFault::NumberTooLarge { at } => SyntaxFault::NumberTooLarge { at },
            TokenFault::Memory => SyntaxFault::Memory,
        }
    }
}

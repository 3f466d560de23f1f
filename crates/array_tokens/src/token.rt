//! What a token is.

ghost use Rattle.std.specs.Prelude.{◌≡◌, pos, nat_le, if◌then◌else◌, Some, None};
ghost use Rattle.array_tokens.specs.Literals.{greatest_literal};

use std::marker::Model;

/// A word of the language, which is no name.
#[derive(Clone, Copy, PartialEq, Eq, Debug, Drop)]
pub enum Word {
    Array,
    Par,
    Team,
    Barrier,
    For,
    In,
    By,
    If,
    Else,
}

/// A sign: `[ ] { } ( ) ; = + - * / % < > <= >= == != ..`, in this order.
#[derive(Clone, Copy, PartialEq, Eq, Debug, Drop)]
pub enum Sign {
    OpenIndex,
    CloseIndex,
    OpenBlock,
    CloseBlock,
    OpenGroup,
    CloseGroup,
    Semicolon,
    Assign,
    Plus,
    Minus,
    Star,
    Slash,
    Percent,
    Less,
    Greater,
    LessEq,
    GreaterEq,
    Equal,
    NotEqual,
    Range,
}

/// A number as texts spell it, without a sign: from 0 to 9223372036854775807, the greatest `i64`.
#[derive(Clone, Copy, Debug, Drop)]
pub struct Literal {
    value: u64,
}

impl Model for Literal {
    ghost use Rattle.std.specs.Prelude.{◌≤◌, ℕ};
    ghost use Rattle.array_tokens.specs.Literals.{greatest_literal};

    ghost Value = { ℕ };

    ghost view = { λ literal. literal.value };

    ghost inverse = { λ number. record { value = number } };

    ghost invariant = { λ literal. literal.value ≤ greatest_literal };
}

impl Literal {
    /// The literal of this value, if it isn't too large for one.
    pub fn new(value: u64) -> Option<Literal>
        ensures { result ≡ (if nat_le value greatest_literal then Some value else None) }
    {
        if value <= i64::MAX as u64 {
            Some(Literal { value })
        } else {
            None
        }
    }

    /// The value.
    pub fn value(&self) -> i64
        ensures { result ≡ pos self.now }
    {
        self.value as i64
    }
}

/// What a token is. A name is the bytes of the text that it was cut from.
#[derive(Clone, Copy)]
pub enum Kind<'t> {
    Name(&'t [u8]),
    Number(Literal),
    Word(Word),
    Sign(Sign),
}

/// A token, with the position of its first byte, counted from 0, and its line, counted from 1.
#[derive(Clone, Copy)]
pub struct Token<'t> {
    pub kind: Kind<'t>,
    pub at: u32,
    pub line: u32,
}

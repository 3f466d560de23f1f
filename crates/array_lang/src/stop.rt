//! Where the parser stops, and the tokens that it expects.

ghost use Rattle.std.specs.Prelude.{◌≡◌};
ghost use Rattle.array_tokens.specs.Lexemes.{spots};
ghost use Rattle.array_lang.specs.Parsing.FirstToken.{IsRestAfter, IsRestAfterWord, IsName, IsNumber};

use array_tokens::{Kind, Sign, Token, Word};
use std::alloc::{AllocError, AllocFailed};

/// Why the parser stopped, and at an unexpected token the tokens from it on.
#[derive(Clone, Copy)]
pub enum Stop<'a, 't> {
    Memory,
    Unexpected(&'a [Token<'t>]),
}

impl From<AllocError> for Stop<'_, '_> {
    ghost use Rattle.std.specs.Prelude.{◌≡◌};
    ghost use Rattle.array_lang.specs.declared.stop.Stop.TheVariants.{Memory};

    ghost from_gives = { λ _ e. e ≡ Memory };

    fn from(_e: AllocError) -> Self {
        Stop::Memory
    }
}

impl<T: Drop> From<AllocFailed<T>> for Stop<'_, '_> {
    ghost use Rattle.std.specs.Prelude.{◌≡◌};
    ghost use Rattle.array_lang.specs.declared.stop.Stop.TheVariants.{Memory};

    ghost from_gives = { λ _ e. e ≡ Memory };

    fn from(_e: AllocFailed<T>) -> Self {
        Stop::Memory
    }
}

/// A tree and the tokens after it.
pub type Parsed<'a, 't, T> = Result<(T, &'a [Token<'t>]), Stop<'a, 't>>;

/// The tokens after this sign.
///
/// # Errors
///
/// `Stop` at the first token if it isn't this sign.
pub fn expect<'a, 't>(tokens: &'a [Token<'t>], sign: Sign) -> Result<&'a [Token<'t>], Stop<'a, 't>>
    ensures { IsRestAfter (spots tokens.now) sign result }
{
    if let [first, rest @ ..] = tokens {
        if let Kind::Sign(found) = first.kind {
            if found == sign {
                return Ok(rest);
            }
        }
    }
    Err(Stop::Unexpected(tokens))
}

/// The tokens after this word.
///
/// # Errors
///
/// `Stop` at the first token if it isn't this word.
pub fn expect_word<'a, 't>(
    tokens: &'a [Token<'t>],
    word: Word,
) -> Result<&'a [Token<'t>], Stop<'a, 't>>
    ensures { IsRestAfterWord (spots tokens.now) word result }
{
    if let [first, rest @ ..] = tokens {
        if let Kind::Word(found) = first.kind {
            if found == word {
                return Ok(rest);
            }
        }
    }
    Err(Stop::Unexpected(tokens))
}

/// The name at the front.
pub fn expect_name<'a, 't>(tokens: &'a [Token<'t>]) -> Parsed<'a, 't, &'t [u8]>
    ensures { IsName (spots tokens.now) result }
{
    if let [first, rest @ ..] = tokens {
        if let Kind::Name(name) = first.kind {
            return Ok((name, rest));
        }
    }
    Err(Stop::Unexpected(tokens))
}

/// The number at the front.
pub fn expect_number<'a, 't>(tokens: &'a [Token<'t>]) -> Parsed<'a, 't, i64>
    ensures { IsNumber (spots tokens.now) result }
{
    let Some((first, rest)) = tokens.split_first() else {
        return Err(Stop::Unexpected(tokens));
    };
    match &first.kind {
        Kind::Number(literal) => Ok((literal.value(), rest)),
        _ => Err(Stop::Unexpected(tokens)),
    }
}

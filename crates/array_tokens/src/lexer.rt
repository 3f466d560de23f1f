//! Bytes to tokens.

ghost use Rattle.std.specs.Prelude.{◌≡◌, ℕ, ◌<◌, ◌≤◌, ◌^◌, ◌==◌, nat_le, if◌then◌else◌, length, slice_index, position, not, IfSome, IfOk, count_by, Result, OnOk, IfErr, List, [], ◌∷◌, Option, Some, None};
ghost use Rattle.array_tokens.specs.Lexemes.{is_ascii, is_name_byte, is_blank, is_digit, is_letter, is_in_line, word_of, sign_of, number_of_digits, front_of, sign_front, Spot, with_tokens, then_cut, Fails, cut, spots, tokens_of, lexeme_of, named, Gives};
ghost use Rattle.array_tokens.specs.Literals.{greatest_literal};
ghost use Rattle.std.specs.List.{prefix_len};
ghost use Rattle.std.specs.Str.{byte};
ghost use Rattle.array_tokens.specs.Fronts.{fronts};

use crate::fault::TokenFault;
use crate::token::{Kind, Literal, Sign, Token, Word};
use std::alloc::Global;

/// What stands at the front of a text.
#[derive(Clone, Copy)]
enum Found<'t> {
    Gap,
    Piece(Kind<'t>),
    NoToken,
    TooLarge,
}

/// Cuts a text into tokens.
///
/// # Errors
///
/// The first error: a byte that isn't ASCII anywhere in the text, or else the first position with no token or with a number
/// that is too large. `TokenFault::Memory` if an allocation fails.
///
/// # Memory
///
/// It allocates the list of tokens. A token borrows its name from the text.
pub fn tokens(alloc: Global, text: &[u8]) -> Result<Vec<Token<'_>>, TokenFault>
    requires { length text.now < 2 ^ 32 }
    ensures { Gives (λ found. spots found.items) result (tokens_of text.now) }
{
    match position_beyond_ascii(text) {
        Some(at) => Err(TokenFault::NotAscii { at: at as u32 }),
        None => cut(alloc, text),
    }
}

fn position_beyond_ascii(text: &[u8]) -> Option<usize>
    ensures at { result ≡ position (λ b. not (is_ascii b)) text.now }
    ensures within { IfSome result (λ at. at < length text.now) }
{
    text.iter().position(|byte| !byte.is_ascii())
}

fn cut(alloc: Global, text: &[u8]) -> Result<Vec<Token<'_>>, TokenFault>
    requires { length text.now < 2 ^ 32 }
    ensures { Gives (λ found. spots found.items) result (cut 0 0 1 text.now) }
{
    let mut found = Vec::new(alloc);
    let mut rest = text;
    let mut at = 0;
    let mut line = 1;
    while !rest.is_empty() {
        let length = add_front(&mut found, rest, at, line)?;
        let (piece, after) = rest.split_at(length);
        line += newlines(piece);
        at += length;
        rest = after;
    }
    Ok(found)
}

// Adds the token at the front of the bytes, if one stands there, and gives how many bytes the front takes.
fn add_front<'t>(
    found: &mut Vec<Token<'t>>,
    bytes: &'t [u8],
    at: usize,
    line: usize,
) -> Result<usize, TokenFault>
    requires some { 0 < length bytes.now }
    requires place { at < 2 ^ 32 }
    requires line { line < 2 ^ 32 }
    ensures ok { OnOk result ((rest : Result (List Spot) TokenFault) →
        with_tokens (spots found.new.items) rest
        ≡ with_tokens (spots found.old.items)
        (then_cut (front_of (slice_index bytes.now 0) bytes.now).0 at line rest)) }
    ensures length { IfOk result (λ length.
        length ≡ (front_of (slice_index bytes.now 0) bytes.now).1) }
    ensures some { IfOk result (λ length. 0 < length) }
    ensures within { IfOk result (λ taken. taken ≤ length bytes.now) }
    ensures err { IfErr result (λ fault. (rest : Result (List Spot) TokenFault) →
        Fails fault (with_tokens (spots found.old.items)
        (then_cut (front_of (slice_index bytes.now 0) bytes.now).0 at line rest))) }
{
    let (front, length) = next_front(bytes);
    let at = at as u32;
    let line = line as u32;
    match front {
        Found::Gap => Ok(length),
        Found::Piece(kind) => match found.push(Token { kind, at, line }) {
            Ok(()) => Ok(length),
            Err(_) => Err(TokenFault::Memory),
        },
        Found::NoToken => Err(TokenFault::BadToken { at }),
        Found::TooLarge => Err(TokenFault::NumberTooLarge { at }),
    }
}

fn newlines(bytes: &[u8]) -> usize
    ensures count { result ≡ count_by (λ b. b == byte "\n") bytes.now }
    ensures bound { result ≤ length bytes.now }
{
    bytes.iter().filter(|byte| **byte == b'\n').count()
}

// What stands at the front, and how many bytes it takes.
fn next_front(bytes: &[u8]) -> (Found<'_>, usize)
    requires { 0 < length bytes.now }
    ensures front { fronts result ≡ front_of (slice_index bytes.now 0) bytes.now }
    ensures some { 0 < result.1 }
    ensures within { result.1 ≤ length bytes.now }
{
    let first = bytes[0];
    if is_blank(first) {
        (Found::Gap, 1)
    } else if first == b'#' {
        (Found::Gap, comment_length(bytes))
    } else if is_letter(first) {
        let length = name_length(bytes);
        (Found::Piece(name_kind(&bytes[..length])), length)
    } else if first.is_ascii_digit() {
        let length = digits_length(bytes);
        match number(&bytes[..length]) {
            Some(literal) => (Found::Piece(Kind::Number(literal)), length),
            None => (Found::TooLarge, length),
        }
    } else {
        sign_front(bytes)
    }
}

fn sign_front(bytes: &[u8]) -> (Found<'_>, usize)
    requires { 0 < length bytes.now }
    ensures front { fronts result ≡ sign_front bytes.now }
    ensures some { 0 < result.1 }
    ensures within { result.1 ≤ length bytes.now }
{
    if bytes.len() > 1 {
        if let Some(sign) = sign_two(bytes[0], bytes[1]) {
            return (Found::Piece(Kind::Sign(sign)), 2);
        }
    }
    match sign_one(bytes[0]) {
        Some(sign) => (Found::Piece(Kind::Sign(sign)), 1),
        None => (Found::NoToken, 1),
    }
}

fn name_kind(bytes: &[u8]) -> Kind<'_>
    ensures { lexeme_of result ≡ named bytes.now (word_of bytes.now) }
{
    match word_of(bytes) {
        Some(word) => Kind::Word(word),
        None => Kind::Name(bytes),
    }
}

// The value of digits, if it isn't too large.
fn number(digits: &[u8]) -> Option<Literal>
    ensures { result ≡ (if nat_le (number_of_digits digits.now) greatest_literal
        then Some (number_of_digits digits.now) else None) }
{
    let mut value = 0u64;
    for digit in digits {
        value = value
            .checked_mul(10)?
            .checked_add((*digit).saturating_sub(b'0') as u64)?;
    }
    Literal::new(value)
}

fn is_letter(byte: u8) -> bool
    ensures { result ≡ is_letter byte }
{
    byte.is_ascii_alphabetic() || byte == b'_'
}

#[tactic(auto, using(std::proofs::lemmas::Grind::common_steps, crate::proofs::Cutting::prefixes))]
fn comment_length(bytes: &[u8]) -> usize
    ensures length { result ≡ prefix_len is_in_line bytes.now }
    ensures within { result ≤ length bytes.now }
{
    bytes.iter().take_while(|byte| **byte != b'\n').count()
}

fn digits_length(bytes: &[u8]) -> usize
    ensures { result ≡ prefix_len is_digit bytes.now }
{
    bytes
        .iter()
        .take_while(|byte| byte.is_ascii_digit())
        .count()
}

fn sign_two(first: u8, second: u8) -> Option<Sign>
    ensures { result ≡ sign_of (first ∷ second ∷ []) }
{
    match (first, second) {
        (b'<', b'=') => Some(Sign::LessEq),
        (b'>', b'=') => Some(Sign::GreaterEq),
        (b'=', b'=') => Some(Sign::Equal),
        (b'!', b'=') => Some(Sign::NotEqual),
        (b'.', b'.') => Some(Sign::Range),
        _ => None,
    }
}

fn is_blank(byte: u8) -> bool
    ensures { result ≡ is_blank byte }
{
    matches!(byte, b' ' | b'\t' | b'\n' | b'\r')
}

fn is_name_byte(byte: u8) -> bool
    ensures { result ≡ is_name_byte byte }
{
    byte.is_ascii_alphanumeric() || byte == b'_'
}

fn name_length(bytes: &[u8]) -> usize
    ensures { result ≡ prefix_len is_name_byte bytes.now }
{
    bytes.iter().take_while(|byte| is_name_byte(**byte)).count()
}

fn word_of(bytes: &[u8]) -> Option<Word>
    ensures { result ≡ word_of bytes.now }
{
    if bytes == b"array".as_slice() {
        Some(Word::Array)
    } else if bytes == b"par".as_slice() {
        Some(Word::Par)
    } else if bytes == b"team".as_slice() {
        Some(Word::Team)
    } else if bytes == b"barrier".as_slice() {
        Some(Word::Barrier)
    } else if bytes == b"for".as_slice() {
        Some(Word::For)
    } else if bytes == b"in".as_slice() {
        Some(Word::In)
    } else if bytes == b"by".as_slice() {
        Some(Word::By)
    } else if bytes == b"if".as_slice() {
        Some(Word::If)
    } else if bytes == b"else".as_slice() {
        Some(Word::Else)
    } else {
        None
    }
}

fn sign_one(byte: u8) -> Option<Sign>
    ensures { result ≡ sign_of (byte ∷ []) }
{
    match byte {
        b'[' => Some(Sign::OpenIndex),
        b']' => Some(Sign::CloseIndex),
        b'{' => Some(Sign::OpenBlock),
        b'}' => Some(Sign::CloseBlock),
        b'(' => Some(Sign::OpenGroup),
        b')' => Some(Sign::CloseGroup),
        b';' => Some(Sign::Semicolon),
        b'=' => Some(Sign::Assign),
        b'+' => Some(Sign::Plus),
        b'-' => Some(Sign::Minus),
        b'*' => Some(Sign::Star),
        b'/' => Some(Sign::Slash),
        b'%' => Some(Sign::Percent),
        b'<' => Some(Sign::Less),
        b'>' => Some(Sign::Greater),
        _ => None,
    }
}

//! Texts and their tokens.

use array_tokens::{Kind, Sign, Token, TokenFault, Word, tokens};
use std::test::Fail;

#[test]
fn cuts_the_longest_tokens(rt: HostRuntime) -> Result<(), Fail> {
    let found = tokens(rt.alloc(), b"forx<=007..\n<#<\n par}")?;
    assert!(rt; are_the_longest(&found));
    Ok(())
}

// Whether these are a name, three signs around a number, a word, and a sign on the third line.
fn are_the_longest(found: &[Token<'_>]) -> bool {
    match found {
        [name, first, number, range, second, word, last] => {
            matches!(name.kind, Kind::Name(name) if name == b"forx".as_slice())
                && is_sign_at(first, Sign::LessEq, 4, 1)
                && is_number(&number.kind, 7)
                && is_sign_at(range, Sign::Range, 9, 1)
                && is_sign_at(second, Sign::Less, 12, 2)
                && matches!(word.kind, Kind::Word(Word::Par))
                && is_sign_at(last, Sign::CloseBlock, 20, 3)
        }
        _ => false,
    }
}

#[test]
fn reports_the_first_fault(rt: HostRuntime) -> Result<(), Fail> {
    let alloc = rt.alloc();
    assert!(rt; is_largest(&tokens(alloc, b"9223372036854775807")?));
    assert!(rt;
        fault(tokens(alloc, b" 9223372036854775808 $"))
            == Some(TokenFault::NumberTooLarge { at: 1 })
    );
    assert!(rt; fault(tokens(alloc, b"a . b")) == Some(TokenFault::BadToken { at: 2 }));
    assert!(rt; fault(tokens(alloc, b"$ #\x80")) == Some(TokenFault::NotAscii { at: 3 }));
    Ok(())
}

// Whether this is the largest number alone.
fn is_largest(found: &[Token<'_>]) -> bool {
    match found {
        [number] => is_number(&number.kind, i64::MAX),
        _ => false,
    }
}

fn is_number(kind: &Kind<'_>, value: i64) -> bool {
    match kind {
        Kind::Number(literal) => literal.value() == value,
        _ => false,
    }
}

fn is_sign_at(token: &Token<'_>, sign: Sign, at: u32, line: u32) -> bool {
    match token.kind {
        Kind::Sign(found) => found == sign && token.at == at && token.line == line,
        _ => false,
    }
}

fn fault(cut: Result<Vec<Token<'_>>, TokenFault>) -> Option<TokenFault> {
    match cut {
        Ok(_) => None,
        Err(fault) => Some(fault),
    }
}

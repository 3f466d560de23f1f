//! Texts, their programs and their errors.

use array_lang::{SyntaxFault, parse};
use array_tree::{Program, Stmt};
use std::test::Fail;

const EVERY_CONSTRUCT: &[u8] = b"array a[4]; array b[0008];\n\
    # a comment\n\
    a[1 + 2 * -3] = (4 - a[0]) % 5 == 6;\n\
    for i in -9..3 { if i < 2 { b[i] = 1; } else { b[i] = 2; } }\n\
    par { { a[0] = 1; } { } }\n\
    team j in 0..6 by 3 { b[j] = j; } barrier { b[j] = b[j] / 2; }";

#[test]
fn every_construct_is_read(rt: HostRuntime) -> Result<(), Fail> {
    let program = parse(rt.alloc(), EVERY_CONSTRUCT)?;
    assert!(rt; has_every_construct(&program));
    Ok(())
}

// Two arrays, and the statements on their lines.
fn has_every_construct(program: &Program) -> bool {
    program.arrays.declarations.len() == 2
        && has_these_lines(program)
        && loops_from_minus_nine(program)
}

// Four statements, on the lines 3 to 6.
fn has_these_lines(program: &Program) -> bool {
    let statements = program.body.statements.as_slice();
    match statements {
        [
            Stmt::Assign { line: 3, .. },
            Stmt::For { line: 4, .. },
            Stmt::Par { line: 5, .. },
            Stmt::Team { line: 6, .. },
        ] => true,
        _ => false,
    }
}

fn loops_from_minus_nine(program: &Program) -> bool {
    match program.body.statements.as_slice() {
        [_, Stmt::For { low, high, .. }, ..] => *low == -9 && *high == 3,
        _ => false,
    }
}

#[test]
fn first_faults_are_reported(rt: HostRuntime) {
    let faults = [
        (b"array a[4".as_slice(), SyntaxFault::Unexpected { at: 9 }),
        (
            b"array a[9223372036854775808];".as_slice(),
            SyntaxFault::NumberTooLarge { at: 8 },
        ),
        (
            b"array \xc3\xa9".as_slice(),
            SyntaxFault::NotAscii { at: 6 },
        ),
        (b"a[0] = $;".as_slice(), SyntaxFault::BadToken { at: 7 }),
        (
            b"a[1 < 2 < 3] = 1;".as_slice(),
            SyntaxFault::Unexpected { at: 8 },
        ),
        (
            b"a[0]=(((((((((((((((((((((((((((((((((((((((((((((((((((((((((((((((((".as_slice(),
            SyntaxFault::TooNested { at: 69 },
        ),
    ];
    for (text, fault) in faults {
        assert!(rt; fault_is(parse(rt.alloc(), text), fault), "at {fault:?}");
    }
}

fn fault_is(parsed: Result<Program, SyntaxFault>, fault: SyntaxFault) -> bool {
    match parsed {
        Ok(_) => false,
        Err(found) => found == fault,
    }
}

//! The numbers of sites and pieces, counted by hand.

use crate::programs::parsed;
use array_tree::Stmt;
use site_counts::{count_of, pieces_in_block, sites_in_block, sites_in_statement, sites_in_turns};
use std::alloc::Global;
use std::test::Fail;

// The numbers of sites and of pieces of a text.
fn counts(alloc: Global, text: &str) -> Result<(u64, u64), Fail> {
    let program = parsed(alloc, text)?;
    Ok((
        sites_in_block(&program.body),
        pieces_in_block(&program.body),
    ))
}

// The sites of a text's first statement, by turns if it is a loop, and its parts if it is a `par`.
fn first_counts(alloc: Global, text: &str) -> Result<(u64, u64, usize), Fail> {
    let program = parsed(alloc, text)?;
    let Some(first) = program.body.statements.first() else {
        return Err(Fail::new("no statement"));
    };
    let sites = sites_in_statement(first);
    match first {
        Stmt::For {
            low,
            high,
            body,
            ..
        } => Ok((sites, sites_in_turns(*low, *high, body), 0)),
        Stmt::Par { branches, .. } => Ok((sites, 0, count_of(branches))),
        _ => Ok((sites, 0, 0)),
    }
}

#[test]
fn sites_and_pieces_of_nested_constructs(rt: HostRuntime) -> Result<(), Fail> {
    let alloc = rt.alloc();
    // Each of three turns has a `par` of two branches, with a `team` of two members and two phases in it.
    let nested = "for i in 0..3 { par { { } { team j in 0..2 by 2 { } barrier { } } } }";
    assert!(rt; counts(alloc, nested)? == (6, 18));
    assert!(rt; first_counts(alloc, nested)? == (6, 6, 0));
    assert!(rt; first_counts(alloc, "par { { } { } { par { { } } } }")? == (2, 0, 3));
    assert!(rt; counts(alloc, "for i in 3..3 { par { { } } }")? == (0, 0));
    Ok(())
}

#[test]
fn counts_stop_at_the_greatest_number(rt: HostRuntime) -> Result<(), Fail> {
    let many = "for i in 0..4611686018427387904 { for j in 0..4 { par { { } } } }";
    assert!(rt; counts(rt.alloc(), many)? == (u64::MAX, u64::MAX));
    Ok(())
}

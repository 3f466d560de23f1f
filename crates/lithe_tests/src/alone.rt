//! Runs of accepted programs on one hart.
use array_eval::Store;
use array_lang::parse;
use array_tree::Program;
use disjoint_check::check;
use hart_loop::{Outcome, run_alone};
use std::alloc::Global;
use std::test::Fail;
use transfer_table::Entry;

const NESTED: &[u8] =
    b"array a[4]; par { { team i in 0..2 by 2 { a[i] = i + 5; } } { a[3] = 9; } }";

const PHASES: &[u8] =
    b"array a[2]; array b[2]; team i in 0..2 by 2 { a[i] = i + 1; } barrier { b[i] = a[1 - i]; }";

// The program of a text.
fn parsed(alloc: Global, text: &[u8]) -> Result<Program, Fail> {
    if text.len() > 65_536 {
        return Err(Fail::new("a longer text than any program's"));
    }
    Ok(parse(alloc, text)?)
}

// The outcome of a run on one hart.
fn outcome(alloc: Global, text: &[u8]) -> Result<Outcome, Fail> {
    let program = parsed(alloc, text)?;
    let accepted = check(alloc, &program, 1)?;
    Ok(run_alone(alloc, &accepted)?)
}

#[test]
fn a_team_inside_a_par_runs_alone(rt: HostRuntime) -> Result<(), Fail> {
    let outcome = outcome(rt.alloc(), NESTED)?;
    let expected = [
        Entry::Register { hart: 0, site: 1 },
        Entry::Register { hart: 0, site: 2 },
        Entry::Unregister { hart: 0, site: 2 },
        Entry::Unregister { hart: 0, site: 1 },
    ];
    assert!(rt; outcome.journal.entries() == expected.as_slice());
    Ok(())
}

// A store of these four values.
fn four_cells(alloc: Global, values: [i64; 4]) -> Result<Store, Fail> {
    let mut store = Store::zero(alloc, 4)?;
    store.put(0, values[0])?;
    store.put(1, values[1])?;
    store.put(2, values[2])?;
    store.put(3, values[3])?;
    Ok(store)
}

#[test]
fn the_phases_of_a_team_run_alone(rt: HostRuntime) -> Result<(), Fail> {
    let outcome = outcome(rt.alloc(), PHASES)?;
    let expected = four_cells(rt.alloc(), [1, 2, 2, 1])?;
    assert!(rt; outcome.store == expected);
    Ok(())
}

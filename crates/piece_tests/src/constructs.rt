//! Constructs that are handed out, their jobs and their pieces.

use crate::driving::stepped;
use array_eval::{MarkedStore, Store};
use array_jobs::{Job, body_job, copy_jobs, written_by};
use contexts::Step;
use disjoint_check::{Accepted, check};
use sample_programs::parsed;
use std::alloc::{AllocError, Global};
use std::test::Fail;
use step_eval::{Found, Kind, Nested, StepMachine, compute, jobs_of};

// The first construct of a program that begins with one.
pub fn first_construct<'p>(alloc: Global, accepted: &Accepted<'p>) -> Result<Nested<'p>, Fail> {
    let mut machine = StepMachine::new(alloc, body_job(alloc, accepted.program())?)?;
    match stepped(&mut machine) {
        Step::Nest(Found::Nest(nested)) => Ok(nested),
        _ => Err(Fail::new("no construct")),
    }
}

// Whether this holds of the first construct of the program of a text.
fn holds<F: Fn(Global, &Nested) -> Result<bool, Fail>>(
    alloc: Global,
    text: &[u8],
    looks: &F,
) -> Result<bool, Fail>
    requires { F.IsAlwaysCallable looks.now }
{
    let program = parsed(alloc, text)?;
    let nested = first_construct(alloc, &check(alloc, &program, 1)?)?;
    looks(alloc, &nested)
}

// Whether a construct writes this.
fn writes(alloc: Global, nested: &Nested, expected: &[(u16, i64)]) -> Result<bool, AllocError> {
    let written = compute(alloc, nested)?;
    Ok(written.pairs() == expected)
}

// Whether a construct is the first of all and a `par` of three branches, the second of which writes nothing.
fn is_a_par(alloc: Global, nested: &Nested) -> Result<bool, Fail> {
    if nested.kind() != Kind::Par || nested.site != 1 {
        return Ok(false);
    }
    if nested.phases() != 1 || nested.members() != 3 {
        return Ok(false);
    }
    Ok(writes(alloc, nested, [(0, 1), (2, 3)].as_slice())?)
}

#[test]
fn a_par_has_one_phase(rt: HostRuntime) -> Result<(), Fail> {
    let text = b"array a[3]; par { { a[0] = 1; } { } { a[2] = 3; } }";
    assert!(rt; holds(rt.alloc(), text.as_slice(), &is_a_par)?);
    Ok(())
}

// Whether a construct is a `team` of two phases and three members.
fn is_a_team(alloc: Global, nested: &Nested) -> Result<bool, Fail> {
    if nested.kind() != Kind::Team || nested.phases() != 2 || nested.members() != 3 {
        return Ok(false);
    }
    let expected = [(0, 5), (1, 6), (2, 7), (3, 8)];
    Ok(writes(alloc, nested, expected.as_slice())?)
}

#[test]
fn a_team_has_its_phases(rt: HostRuntime) -> Result<(), Fail> {
    let text = b"array a[4]; team i in 0..4 by 3 { a[i] = i; } barrier { a[i] = a[i] + 5; }";
    assert!(rt; holds(rt.alloc(), text.as_slice(), &is_a_team)?);
    Ok(())
}

// The jobs of a construct's first phase.
fn first_jobs<'p>(alloc: Global, nested: &Nested<'p>) -> Result<Vec<Job<'p>>, AllocError> {
    let _phases = nested.phases();
    jobs_of(alloc, nested, 0, &nested.store)
}

// Whether the pieces of jobs, merged in an order, write this.
fn merge_to(
    alloc: Global,
    store: &Store,
    jobs: &[Job],
    order: &[usize],
    expected: &[(u16, i64)],
) -> Result<bool, Fail> {
    let mut marked = MarkedStore::new(alloc, store)?;
    for place in order {
        if let Some(job) = jobs.get(*place) {
            merge(alloc, &mut marked, job)?;
        }
    }
    if marked.count() >= 65_536 {
        return Err(Fail::new("more cells than any program has"));
    }
    let written = marked.written(alloc)?;
    Ok(written.pairs() == expected)
}

// Merges the writes of a job into a store.
fn merge(alloc: Global, marked: &mut MarkedStore, job: &Job) -> Result<(), AllocError> {
    marked.merge(&written_by(alloc, job)?);
    Ok(())
}

// Whether the pieces of the three branches of a `par` write the same in each order.
fn merges_in_any_order(alloc: Global, nested: &Nested) -> Result<bool, Fail> {
    let jobs = first_jobs(alloc, nested)?;
    merge_in_any_order(alloc, &nested.store, &jobs)
}

// Whether the pieces of three jobs write the same in each order.
fn merge_in_any_order(alloc: Global, store: &Store, jobs: &[Job]) -> Result<bool, Fail> {
    let expected = [(0, 3), (1, 0), (3, 1)];
    for order in [[0, 1, 2], [2, 1, 0], [1, 2, 0]] {
        if !merge_to(alloc, store, jobs, order.as_slice(), expected.as_slice())? {
            return Ok(false);
        }
    }
    Ok(true)
}

#[test]
fn pieces_are_merged_in_any_order(rt: HostRuntime) -> Result<(), Fail> {
    let text = b"array a[4]; par { { a[3] = 1; } { a[0] = 2; a[0] = 3; } { a[1] = 0; } }";
    assert!(rt; holds(rt.alloc(), text.as_slice(), &merges_in_any_order)?);
    Ok(())
}

// Whether the copies of a construct's jobs equal them, and are two, the second of which is the branch at index 1.
fn has_copied_jobs(alloc: Global, nested: &Nested) -> Result<bool, Fail> {
    let jobs = first_jobs(alloc, nested)?;
    Ok(are_copied(alloc, &jobs)?)
}

// Whether the copies of jobs equal them, and are two, the second of which is at index 1.
fn are_copied(alloc: Global, jobs: &[Job]) -> Result<bool, AllocError> {
    let copies = copy_jobs(alloc, jobs)?;
    Ok(copies.as_slice() == jobs && is_second_at_one(&copies))
}

// Whether there are two jobs, the second of which is at index 1 and begins with site 2.
fn is_second_at_one(jobs: &[Job]) -> bool {
    match jobs {
        [_, second] => second.place == 1 && second.first == 2,
        _ => false,
    }
}

#[test]
fn jobs_are_copied_in_order(rt: HostRuntime) -> Result<(), Fail> {
    let text = b"array a[2]; par { { a[0] = 1; } { a[1] = 2; } }";
    assert!(rt; holds(rt.alloc(), text.as_slice(), &has_copied_jobs)?);
    Ok(())
}

// Whether a construct equals its copy.
fn is_copied(nested: &Nested) -> Result<bool, AllocError> {
    let copy = nested.copy()?;
    Ok(&copy == nested)
}

// Whether a construct equals its copy, and its members' first sites are 2 and 4.
fn counts_sites_before(alloc: Global, nested: &Nested) -> Result<bool, Fail> {
    if !is_copied(nested)? {
        return Ok(false);
    }
    let jobs = first_jobs(alloc, nested)?;
    Ok(begin_with_two_and_four(&jobs))
}

// Whether there are two jobs, at the indices 0 and 1, that begin with the sites 2 and 4.
fn begin_with_two_and_four(jobs: &[Job]) -> bool {
    match jobs {
        [first, second] => {
            (first.place, first.first) == (0, 2) && (second.place, second.first) == (1, 4)
        }
        _ => false,
    }
}

#[test]
fn a_member_counts_the_sites_of_those_before_it(rt: HostRuntime) -> Result<(), Fail> {
    let text = b"array a[4]; team i in 0..4 by 2 { par { { a[i] = i + 5; } { } } }";
    assert!(rt; holds(rt.alloc(), text.as_slice(), &counts_sites_before)?);
    Ok(())
}

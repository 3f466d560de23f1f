//! The jobs of the pieces of a construct that is handed out.
ghost use Rattle.std.specs.Prelude.{◌≡◌, ◌+◌, ◌*◌, ◌^◌, ◌<◌, ◌≤◌, IfOk, Some, map, length, slice_get, ◌∷◌, []};
ghost use Rattle.array_tree.specs.Trees.{statement_of, sequence_of, sequences_of};
ghost use Rattle.array_meaning.specs.Work.{span};
ghost use Rattle.array_meaning.specs.Limits.{count_of};
ghost use Rattle.site_counts.specs.Capped.{capped};
ghost use Rattle.array_jobs.specs.Works.{work_of};
ghost use Rattle.array_jobs.specs.Jobs.{job_of};
ghost use Rattle.array_jobs.specs.Groups.{IsGroup};
ghost use Rattle.step_eval.specs.Nests.{nested_of, phases_of, branch_trees, member_trees, piece_trees, sites_before, earlier_sites, sites_of_all, numbered, jobs_in, AreFitJobs};
ghost use Rattle.step_eval.specs.Shapes.{members_of};

use crate::nested::Nested;
use array_eval::{Store, start_of_member};
use array_jobs::{Job, Work, sites_in};
use array_tree::{Block, Blocks, Name, Stmt};
use site_counts::sites_in_turns;
use std::alloc::{AllocError, Global};

/// The jobs of the pieces of a phase, counted from 0, in the order of their indices: one for each branch or member. They are a
/// group.
///
/// They start from this store, which has as many cells as the store before the construct. A `par` has one phase. The sites
/// inside the jobs have consecutive numbers, after those of earlier phases in all iterations.
///
/// # Errors
///
/// `AllocError` if an allocation fails.
///
/// # Memory
///
/// It allocates the list of the phase's works and the list of jobs.
pub fn jobs_of<'p>(
    alloc: Global,
    nested: &Nested<'p>,
    phase: u8,
    store: &Store,
) -> Result<Vec<Job<'p>>, AllocError>
    requires phase { phase < phases_of (statement_of nested.now.construct) }
    requires cells { length store.now ≡ length nested.now.store }
    ensures jobs { IfOk result
        (λ jobs. map job_of jobs.items ≡ jobs_in (nested_of nested.now) phase store.now) }
    ensures group { IfOk result (λ jobs. IsGroup (map job_of jobs.items)) }
{
    let works = works_of(alloc, nested.construct, phase)?;
    jobs_of_works(
        alloc,
        nested,
        phase,
        store,
        first_site(nested, phase),
        &works,
    )
}

/// The job of the piece at an index of a phase: equal to the job that `jobs_of` has there. It copies the variables and the
/// store for this job alone.
///
/// It starts from this store, which has as many cells as the store before the construct. `phase` is below the number of phases,
/// `place` below the number of members.
///
/// # Errors
///
/// `AllocError` if an allocation fails.
///
/// # Memory
///
/// It allocates the list of the phase's works.
pub fn job_at<'p>(
    alloc: Global,
    nested: &Nested<'p>,
    phase: u8,
    place: u8,
    store: &Store,
) -> Result<Job<'p>, AllocError>
    requires phase { phase < phases_of (statement_of nested.now.construct) }
    requires place { place < members_of (statement_of nested.now.construct) }
    requires cells { length store.now ≡ length nested.now.store }
    ensures { IfOk result
        (λ job. slice_get (jobs_in (nested_of nested.now) phase store.now) place ≡ Some (job_of job)) }
{
    let works = works_of(alloc, nested.construct, phase)?;
    job_of_place(
        nested,
        phase,
        store,
        first_site(nested, phase),
        &works,
        place,
    )
}

// The number of the first site inside the pieces of a phase.
fn first_site(nested: &Nested, phase: u8) -> u16
    requires { phase < phases_of (statement_of nested.now.construct) }
    ensures { result ≡ nested.now.site + 1
        + earlier_sites (statement_of nested.now.construct) phase }
{
    nested.site + 1 + earlier_sites(nested.construct, phase) as u16
}

// The number of sites of the phases before this one.
fn earlier_sites(construct: &Stmt, phase: u8) -> u64
    requires { phase < phases_of (statement_of construct.now) }
    ensures { result ≡ capped (earlier_sites (statement_of construct.now) phase) }
{
    match construct {
        Stmt::Team {
            low,
            high,
            phases,
            ..
        } => sites_before(phases, *low, *high, phase),
        _ => 0,
    }
}

// The number of sites of the phases before `phase`, each in all its iterations.
fn sites_before(phases: &Blocks, low: i64, high: i64, phase: u8) -> u64
    requires { phase ≤ count_of (sequences_of phases.now) }
    ensures { result ≡ capped (span low high * sites_before (sequences_of phases.now) phase) }
{
    let mut sites: u64 = 0;
    for body in &phases.blocks[..usize::from(phase)] {
        sites = sites.saturating_add(sites_in_turns(low, high, body));
    }
    sites
}

// The works of the pieces of a phase.
fn works_of<'p>(alloc: Global, construct: &'p Stmt, phase: u8) -> Result<Vec<Work<'p>>, AllocError>
    requires { phase < phases_of (statement_of construct.now) }
    ensures { IfOk result (λ works. map work_of works.items
        ≡ piece_trees (statement_of construct.now) phase) }
{
    match construct {
        Stmt::Par { branches, .. } => branch_works(alloc, branches),
        Stmt::Team {
            var,
            low,
            high,
            members,
            phases,
            ..
        } => member_works(
            alloc,
            var,
            *low,
            *high,
            members.unsigned_abs(),
            &phases.blocks[usize::from(phase)],
        ),
        _ => Ok(Vec::new(alloc)),
    }
}

// The works of the branches of a `par`.
fn branch_works<'p>(alloc: Global, branches: &'p Blocks) -> Result<Vec<Work<'p>>, AllocError>
    ensures { IfOk result (λ works. map work_of works.items
        ≡ branch_trees (sequences_of branches.now)) }
{
    let mut works = Vec::new(alloc);
    for branch in &branches.blocks {
        works.push(Work::Branch(branch))?;
    }
    Ok(works)
}

// The works of the members of a `team` in the phase with this body.
fn member_works<'p>(
    alloc: Global,
    var: &'p Name,
    low: i64,
    high: i64,
    members: u64,
    body: &'p Block,
) -> Result<Vec<Work<'p>>, AllocError>
    ensures { IfOk result (λ works. map work_of works.items
        ≡ member_trees var.now low high members (sequence_of body.now) 0 members) }
{
    let mut works = Vec::new(alloc);
    for member in 0..members {
        works.push(Work::Member {
            var,
            low: start_of_member(low, high, members, member),
            high: start_of_member(low, high, members, member + 1),
            body,
        })?;
    }
    Ok(works)
}

// The jobs of works in a phase, from index 0 on. The next site gets this number.
fn jobs_of_works<'p>(
    alloc: Global,
    nested: &Nested<'p>,
    phase: u8,
    store: &Store,
    next: u16,
    works: &[Work<'p>],
) -> Result<Vec<Job<'p>>, AllocError>
    requires { AreFitJobs (numbered (nested_of nested.now) phase store.now 0 next
        (map work_of works.now)) }
    ensures { IfOk result (λ jobs. map job_of jobs.items
        ≡ numbered (nested_of nested.now) phase store.now 0 next (map work_of works.now)) }
{
    let mut jobs = Vec::new(alloc);
    let mut first = next;
    for (place, work) in works.iter().enumerate() {
        jobs.push(job_of_work(nested, phase, store, place as u8, first, *work)?)?;
        first += sites_in(work) as u16;
    }
    Ok(jobs)
}

// The job at this index, of the jobs of works in a phase. The first site of the first job has this number.
fn job_of_place<'p>(
    nested: &Nested<'p>,
    phase: u8,
    store: &Store,
    next: u16,
    works: &[Work<'p>],
    place: u8,
) -> Result<Job<'p>, AllocError>
    requires place { place < length works.now }
    requires fit { AreFitJobs (numbered (nested_of nested.now) phase store.now 0 next
        (map work_of works.now)) }
    ensures { IfOk result
        (λ job. slice_get (numbered (nested_of nested.now) phase store.now 0 next (map work_of works.now)) place
        ≡ Some (job_of job)) }
{
    let before = usize::from(place);
    let first = site_after(next, &works[..before]);
    job_of_work(nested, phase, store, place, first, works[before])
}

// The number of the site after those of these works. The first of them has this number.
fn site_after(next: u16, works: &[Work]) -> u16
    requires { next + sites_of_all (map work_of works.now) < 2 ^ 16 }
    ensures { result ≡ next + sites_of_all (map work_of works.now) }
{
    let mut after = next;
    for work in works {
        after += sites_in(work) as u16;
    }
    after
}

// The job of one work.
fn job_of_work<'p>(
    nested: &Nested<'p>,
    phase: u8,
    store: &Store,
    place: u8,
    first: u16,
    work: Work<'p>,
) -> Result<Job<'p>, AllocError>
    requires { AreFitJobs (numbered (nested_of nested.now) phase store.now place first
        (work_of work ∷ [])) }
    ensures { IfOk result (λ job. job_of job ∷ []
        ≡ numbered (nested_of nested.now) phase store.now place first (work_of work.entry ∷ [])) }
{
    Ok(Job {
        arrays: nested.arrays,
        site: nested.site,
        phase,
        place,
        first,
        work,
        vars: nested.vars.copy()?,
        store: store.copy()?,
    })
}

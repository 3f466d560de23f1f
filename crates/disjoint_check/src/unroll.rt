//! The sites of a program, found by unrolling its loops, whose bounds are literals.
ghost use Rattle.std.specs.Prelude.{◌≡◌, [], IfOk};
ghost use Rattle.array_tree.specs.Trees.{statement_of, sequence_of, sequences_of, program_of};
ghost use Rattle.disjoint_check.specs.Inside.Unrolled.{with_statement, with_sequence, with_branches, with_phases, repeat, last_site, parts};

use array_eval::span;
use array_tree::{Block, Blocks, Program, Stmt};
use site_counts::{count_of, sites_in_block};
use std::alloc::{AllocError, Global};

/// A site: the construct around it, and its shape. A `par` has no phases, and its branches are its members.
#[derive(Clone, Copy, Drop)]
pub(crate) struct Site {
    pub(crate) parent: u16,
    pub(crate) members: u8,
    pub(crate) phases: u8,
}

/// The sites of a program in the order of its plan.
pub(crate) fn sites_of(alloc: Global, program: &Program) -> Result<Vec<Site>, AllocError>
    ensures { IfOk result (λ sites. sites.items
        ≡ with_sequence (program_of program.now).body 0 []) }
{
    let mut sites = Vec::new(alloc);
    unroll_block(&program.body, 0, &mut sites)?;
    Ok(sites)
}

// Appends the sites of a block to those of the walk so far, given the construct around it.
#[cycle(unroll)]
fn unroll_block(block: &Block, around: u16, sites: &mut Vec<Site>) -> Result<(), AllocError>
    ensures { IfOk result (λ _. sites.new.items
        ≡ with_sequence (sequence_of block.now) around sites.old.items) }
{
    for statement in &block.statements {
        unroll_statement(statement, around, sites)?;
    }
    Ok(())
}

// The same for a statement: a construct comes before those inside it.
#[cycle(unroll)]
fn unroll_statement(statement: &Stmt, around: u16, sites: &mut Vec<Site>) -> Result<(), AllocError>
    ensures { IfOk result (λ _. sites.new.items
        ≡ with_statement (statement_of statement.now) around sites.old.items) }
{
    match statement {
        Stmt::Assign { .. } => Ok(()),
        Stmt::For {
            low,
            high,
            body,
            ..
        } => unroll_turns(body, span(*low, *high), around, sites),
        Stmt::If {
            then_block,
            else_block,
            ..
        } => {
            unroll_block(then_block, around, sites)?;
            unroll_block(else_block, around, sites)
        }
        Stmt::Par { branches, .. } => {
            sites.push(Site {
                parent: around,
                members: parts(count_of(branches) as u64),
                phases: 0,
            })?;
            unroll_branches(branches, last_site(sites), sites)
        }
        Stmt::Team {
            low,
            high,
            members,
            phases,
            ..
        } => {
            sites.push(Site {
                parent: around,
                members: parts(members.unsigned_abs()),
                phases: parts(count_of(phases) as u64),
            })?;
            unroll_phases(phases, span(*low, *high), last_site(sites), sites)
        }
    }
}

// The same for the branches of a `par`.
#[cycle(unroll)]
fn unroll_branches(branches: &Blocks, around: u16, sites: &mut Vec<Site>) -> Result<(), AllocError>
    ensures { IfOk result (λ _. sites.new.items
        ≡ with_branches (sequences_of branches.now) around sites.old.items) }
{
    for branch in &branches.blocks {
        unroll_block(branch, around, sites)?;
    }
    Ok(())
}

// The same for the phases of a `team`, each over all its iterations.
#[cycle(unroll)]
fn unroll_phases(
    phases: &Blocks,
    iterations: u64,
    around: u16,
    sites: &mut Vec<Site>,
) -> Result<(), AllocError>
    ensures { IfOk result (λ _. sites.new.items
        ≡ with_phases (sequences_of phases.now) iterations around sites.old.items) }
{
    for phase in &phases.blocks {
        unroll_turns(phase, iterations, around, sites)?;
    }
    Ok(())
}

// The turns of a loop. It passes over a body that has no site, for any number of turns.
#[cycle(unroll)]
#[tactic(auto, using(crate::proofs::Unrolling::skipped, crate::proofs::Unrolling::repeat_next))]
fn unroll_turns(
    body: &Block,
    turns: u64,
    around: u16,
    sites: &mut Vec<Site>,
) -> Result<(), AllocError>
    ensures { IfOk result (λ _. sites.new.items
        ≡ repeat turns (with_sequence (sequence_of body.now) around) sites.old.items) }
{
    if turns == 0 {
        return Ok(());
    }
    if sites_in_block(body) == 0 {
        return Ok(());
    }
    for _turn in 0..turns {
        unroll_block(body, around, sites)?;
    }
    Ok(())
}

// The number of the last site.
fn last_site(sites: &Vec<Site>) -> u16
    ensures { result ≡ last_site sites.now.items }
{
    u16::try_from(sites.len()).unwrap_or(u16::MAX)
}

// A number of parts, at most 255.
fn parts(count: u64) -> u8
    ensures { result ≡ parts count }
{
    u8::try_from(count).unwrap_or(u8::MAX)
}

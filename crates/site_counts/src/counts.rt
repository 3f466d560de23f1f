//! The number of a block's sites, and of their pieces.
//!
//! Why two functions of one form, for sites and for pieces: a common one would need a parameter with a contract, and would lose
//! the recursion over the text.
ghost use Rattle.std.specs.Prelude.{◌≡◌, ℕ, ◌+◌, ◌*◌};
ghost use Rattle.array_tree.specs.Trees.{statement_of, sequence_of, sequences_of};
ghost use Rattle.array_meaning.specs.Work.{span};
ghost use Rattle.array_meaning.specs.Plans.{sites_in, statement_sites_in, branches_sites_in};
ghost use Rattle.array_meaning.specs.Limits.{count_of, pieces_in, statement_pieces_in, branches_pieces_in};
ghost use Rattle.site_counts.specs.Capped.{capped};

use array_eval::span;
use array_tree::{Block, Blocks, Stmt};

/// The number of a block's sites. Here and below, the greatest number of 64 bits also stands for all greater numbers. The count
/// doesn't visit loops without a turn.
#[cycle(sites)]
pub fn sites_in_block(block: &Block) -> u64
    ensures { result ≡ capped (sites_in (sequence_of block.now)) }
{
    let mut sites: u64 = 0;
    for statement in &block.statements {
        sites = sites.saturating_add(sites_in_statement(statement));
    }
    sites
}

/// The number of sites of a loop that runs a block for each number from `low` to before `high`.
#[cycle(sites)]
pub fn sites_in_turns(low: i64, high: i64, body: &Block) -> u64
    ensures { result ≡ capped (span low high * sites_in (sequence_of body.now)) }
{
    let turns = span(low, high);
    if turns == 0 {
        0
    } else {
        times(turns, sites_in_block(body))
    }
}

/// The number of a statement's sites.
#[cycle(sites)]
pub fn sites_in_statement(statement: &Stmt) -> u64
    ensures { result ≡ capped (statement_sites_in (statement_of statement.now)) }
{
    match statement {
        Stmt::Assign { .. } => 0,
        Stmt::For {
            low,
            high,
            body,
            ..
        } => sites_in_turns(*low, *high, body),
        Stmt::If {
            then_block,
            else_block,
            ..
        } => sites_in_block(then_block).saturating_add(sites_in_block(else_block)),
        Stmt::Par { branches, .. } => sites_among(branches).saturating_add(1),
        Stmt::Team {
            low,
            high,
            phases,
            ..
        } => {
            let turns = span(*low, *high);
            if turns == 0 {
                1
            } else {
                times(turns, sites_among(phases)).saturating_add(1)
            }
        }
    }
}

// The number of sites that branches or phases enter, each once.
#[cycle(sites)]
fn sites_among(blocks: &Blocks) -> u64
    ensures { result ≡ capped (branches_sites_in (sequences_of blocks.now)) }
{
    let mut sites: u64 = 0;
    for block in &blocks.blocks {
        sites = sites.saturating_add(sites_in_block(block));
    }
    sites
}

/// The number of pieces of a block's sites.
#[cycle(pieces)]
pub fn pieces_in_block(block: &Block) -> u64
    ensures { result ≡ capped (pieces_in (sequence_of block.now)) }
{
    let mut pieces: u64 = 0;
    for statement in &block.statements {
        pieces = pieces.saturating_add(pieces_in_statement(statement));
    }
    pieces
}

// The same for a statement: a construct has its own pieces, and those of the sites inside it.
#[cycle(pieces)]
fn pieces_in_statement(statement: &Stmt) -> u64
    ensures { result ≡ capped (statement_pieces_in (statement_of statement.now)) }
{
    match statement {
        Stmt::Assign { .. } => 0,
        Stmt::For {
            low,
            high,
            body,
            ..
        } => times(span(*low, *high), pieces_in_block(body)),
        Stmt::If {
            then_block,
            else_block,
            ..
        } => pieces_in_block(then_block).saturating_add(pieces_in_block(else_block)),
        Stmt::Par { branches, .. } => {
            pieces_among(branches).saturating_add(count_of(branches) as u64)
        }
        Stmt::Team {
            low,
            high,
            members,
            phases,
            ..
        } => pieces_of_team(
            members.unsigned_abs(),
            count_of(phases) as u64,
            span(*low, *high),
            pieces_among(phases),
        ),
    }
}

// The same for branches or phases, each once.
#[cycle(pieces)]
fn pieces_among(blocks: &Blocks) -> u64
    ensures { result ≡ capped (branches_pieces_in (sequences_of blocks.now)) }
{
    let mut pieces: u64 = 0;
    for block in &blocks.blocks {
        pieces = pieces.saturating_add(pieces_in_block(block));
    }
    pieces
}

/// The number of branches or phases.
pub fn count_of(blocks: &Blocks) -> usize
    ensures { result ≡ count_of (sequences_of blocks.now) }
{
    blocks.blocks.len()
}

// A number, multiplied by so many turns.
#[tactic(auto, using(crate::proofs::Capped::capped_product))]
fn times(turns: u64, number: u64) -> u64
    ensures { (each : ℕ) → number ≡ capped each → result ≡ capped (turns * each) }
{
    turns.saturating_mul(number)
}

// The pieces of a team with so many members and phases, and with so many pieces inside each turn of all phases.
fn pieces_of_team(members: u64, phases: u64, turns: u64, inside: u64) -> u64
    ensures { (each : ℕ) → inside ≡ capped each
        → result ≡ capped (members * phases + turns * each) }
{
    members
        .saturating_mul(phases)
        .saturating_add(times(turns, inside))
}

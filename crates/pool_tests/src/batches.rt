//! Pieces that are kept and handed over together.
use crate::hands::{own_rows, shared_pool};
use crate::stores::{AFTER_A_WRITE, second_piece};
use array_jobs::Piece;
use array_tree::Program;
use forkjoin_sched::{PieceBatch, PoolHand};
use sample_programs::{TWO_BRANCHES, parsed, piece_at};
use std::alloc::Global;
use std::sync::Wait;
use std::test::Fail;

// A batch of this piece alone.
fn batch_of<'p>(alloc: Global, piece: Piece<'p>) -> Result<PieceBatch<'p>, Fail> {
    let mut batch = PieceBatch::new(alloc, piece.job.store.copy()?);
    match batch.add(piece) {
        Ok(()) => Ok(batch),
        Err(_) => Err(Fail::new("the piece isn't kept")),
    }
}

// Hands a piece over. Whether the batch then has none.
fn hands_over<'a, 'p, R: Wait + 'a>(
    rt: &'a R,
    hand: &mut PoolHand<'a, '_, 'p, R>,
    alloc: Global,
    piece: Piece<'p>,
) -> Result<bool, Fail> {
    let mut batch = batch_of(alloc, piece)?;
    let had_one = !batch.is_empty();
    hand.hand_over(rt, &mut batch);
    Ok(had_one && batch.is_empty())
}

// Hands over the pool's own first piece and this second one, and takes the pool out. Whether that has just its own jobs.
fn keeps_its_jobs<'a, 'p, R: Wait + 'a>(
    rt: &'a R,
    hand: &mut PoolHand<'a, '_, 'p, R>,
    alloc: Global,
    second: Piece<'p>,
) -> Result<bool, Fail> {
    let first = piece_at(alloc, hand.shared.jobs(), 0)?;
    if !hands_over(rt, hand, alloc, first)? || !hands_over(rt, hand, alloc, second)? {
        return Err(Fail::new("a piece is still in its batch"));
    }
    match hand.take_out(rt) {
        Some(pool) => Ok(hand.shared.has_jobs_of(&pool)),
        None => Err(Fail::new("the pool isn't full")),
    }
}

// Whether a pool of this program has its own jobs after its own second piece was handed over, or that of the other program.
fn has_own_jobs<'p, R: Wait>(
    rt: &R,
    alloc: Global,
    program: &'p Program,
    other: &'p Program,
    own: bool,
) -> Result<bool, Fail> {
    let shared = shared_pool(alloc, program)?;
    let second = if own {
        piece_at(alloc, shared.jobs(), 1)?
    } else {
        second_piece(alloc, other)?
    };
    let mut rows = own_rows(alloc)?;
    let mut hand = PoolHand::new(&shared, &mut rows, 0, 1);
    keeps_its_jobs(rt, &mut hand, alloc, second)
}

// The same of the two branches, and of these after a write.
fn has_own_after<R: Wait>(rt: &R, alloc: Global, own: bool) -> Result<bool, Fail> {
    let program = parsed(alloc, TWO_BRANCHES)?;
    let other = parsed(alloc, AFTER_A_WRITE)?;
    has_own_jobs(rt, alloc, &program, &other, own)
}

#[test]
fn pieces_that_are_handed_over_fill_their_places(rt: HostRuntime) -> Result<(), Fail> {
    assert!(rt; has_own_after(&rt, rt.alloc(), true)?);
    Ok(())
}

#[test]
fn a_piece_of_another_store_that_is_handed_over_is_found(rt: HostRuntime) -> Result<(), Fail> {
    assert!(rt; !has_own_after(&rt, rt.alloc(), false)?);
    Ok(())
}

// Whether a batch of the pool's first piece returns a piece of another store.
fn returns_another<'p>(alloc: Global, first: Piece<'p>, other: Piece<'p>) -> Result<bool, Fail> {
    let mut batch = batch_of(alloc, first)?;
    Ok(batch.add(other).is_err())
}

// The same of the pieces of two programs.
fn keeps_one_store(alloc: Global) -> Result<bool, Fail> {
    let program = parsed(alloc, TWO_BRANCHES)?;
    let other = parsed(alloc, AFTER_A_WRITE)?;
    let shared = shared_pool(alloc, &program)?;
    let first = piece_at(alloc, shared.jobs(), 0)?;
    returns_another(alloc, first, second_piece(alloc, &other)?)
}

#[test]
fn a_batch_returns_a_piece_of_another_store(rt: HostRuntime) -> Result<(), Fail> {
    assert!(rt; keeps_one_store(rt.alloc())?);
    Ok(())
}

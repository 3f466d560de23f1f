//! The pieces of a pool that a hart keeps for a while.
ghost use Rattle.std.specs.Prelude.{◌≡◌, IfOk};
ghost use Rattle.shared_sites.specs.Keeping.{pieces_of, begun, Keeps};

use array_jobs::Piece;
use forkjoin_sched::{NotAdded, PieceBatch, SharedPool};
use std::alloc::{AllocError, Global};

/// Keeps a piece of the pool, to hand it over later.
///
/// # Errors
///
/// `NotAdded::OtherStart` exactly if the piece's job doesn't start from the store of the kept pieces, or, if there is no batch, if
/// the pool's jobs aren't known to start from the store of the piece's job. `NotAdded::OutOfMemory` if an allocation fails.
pub(crate) fn keep<'p>(
    alloc: Global,
    pool: &SharedPool<'p>,
    kept: &mut Option<PieceBatch<'p>>,
    piece: Piece<'p>,
) -> Result<(), NotAdded<'p>>
    ensures { Keeps pool.now kept.old piece.entry result kept.new }
{
    match begin(alloc, pool, kept) {
        Ok(()) => {}
        Err(AllocError) => return Err(NotAdded::OutOfMemory(piece)),
    }
    match kept {
        Some(batch) => batch.add(piece),
        None => Err(NotAdded::OtherStart(piece)),
    }
}

// Begins a batch, if there is none and the pool's jobs are known to start from one store.
fn begin<'p>(
    alloc: Global,
    pool: &SharedPool<'p>,
    kept: &mut Option<PieceBatch<'p>>,
) -> Result<(), AllocError>
    ensures pieces { pieces_of kept.new ≡ pieces_of kept.old }
    ensures begun { IfOk result (λ _. kept.new ≡ begun pool.now kept.old) }
{
    if kept.is_some() {
        return Ok(());
    }
    let Some(start) = pool.start() else {
        return Ok(());
    };
    *kept = Some(PieceBatch::new(alloc, start.copy()?));
    Ok(())
}

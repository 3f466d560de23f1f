//! Pieces that a hart keeps for a while.
ghost use Rattle.std.specs.Prelude.{◌≡◌, ◌↔◌, [], IsTrue, Some, length};
ghost use Rattle.forkjoin_sched.specs.Pools.{StartFrom, start_of};
ghost use Rattle.forkjoin_sched.specs.Batches.{new_batch, Starts, Adds, Takes, PutsAll, KnowsAfter, emptied};

use crate::pool::Pool;
use array_eval::Store;
use array_jobs::Piece;
use std::alloc::Global;
use std::marker::Model;

/// Why a batch doesn't keep a piece, with the piece.
#[derive(Debug, Drop)]
pub enum NotAdded<'p> {
    /// The piece's job starts from another store.
    OtherStart(Piece<'p>),
    /// An allocation failed.
    OutOfMemory(Piece<'p>),
}

/// Pieces of one pool that a hart made and hasn't handed over yet. The jobs of all of them start from one store.
///
/// Why a hart keeps pieces: it takes the pool's lock once for all of them, and under the lock only one store is compared.
#[derive(Drop)]
pub struct PieceBatch<'p> {
    start: Store,
    pieces: Vec<Piece<'p>>,
}

impl<'p> Model for PieceBatch<'p> {
    ghost use Rattle.std.specs.Prelude.{All};
    ghost use Rattle.std.specs.Coded.{codes};
    ghost use Rattle.array_tree.specs.contracts.tree.Arrays as arrays_type;
    ghost use Rattle.array_tree.specs.contracts.tree.Block as block_type;
    ghost use Rattle.forkjoin_sched.specs.Batches.{BatchParts, Starts};

    ghost Value = { BatchParts };

    ghost coded = { Prim.hlevel (codes, arrays_type.the_row.coded, block_type.the_row.coded) };

    ghost view = { λ batch. record { start = batch.start; pieces = batch.pieces.items } };

    ghost invariant = { λ batch. All (Starts batch.start) batch.pieces.items };
}

impl<'p> PieceBatch<'p> {
    /// No pieces. The jobs of the pieces to be added must start from this store.
    ///
    /// # Memory
    ///
    /// It doesn't allocate.
    pub fn new(alloc: Global, start: Store) -> PieceBatch<'p>
        ensures { result ≡ new_batch start }
    {
        PieceBatch {
            start,
            pieces: Vec::new(alloc),
        }
    }

    /// Whether it has no piece.
    pub fn is_empty(&self) -> bool
        ensures { IsTrue result ↔ (self.now.pieces ≡ []) }
    {
        self.pieces.is_empty()
    }

    /// The number of its pieces.
    pub fn len(&self) -> usize
        ensures { result ≡ length self.now.pieces }
    {
        self.pieces.len()
    }

    /// Keeps a piece.
    ///
    /// # Errors
    ///
    /// `NotAdded::OtherStart` exactly if the piece's job starts from another store; `NotAdded::OutOfMemory` if an allocation
    /// fails.
    pub fn add(&mut self, piece: Piece<'p>) -> Result<(), NotAdded<'p>>
        ensures { Adds self.old piece.entry result self.new }
    {
        if piece.job.store == self.start {
            self.push(piece)
        } else {
            Err(NotAdded::OtherStart(piece))
        }
    }

    // Keeps a piece whose job starts from the batch's store.
    fn push(&mut self, piece: Piece<'p>) -> Result<(), NotAdded<'p>>
        requires { Starts self.old.start piece }
        ensures { Adds self.old piece.entry result self.new }
    {
        match self.pieces.push(piece) {
            Ok(()) => Ok(()),
            Err(failed) => Err(NotAdded::OutOfMemory(failed.value)),
        }
    }

    // Drops all pieces.
    pub(crate) fn clear(&mut self)
        ensures { self.new ≡ emptied self.old }
    {
        self.pieces.clear();
    }

    /// Puts all pieces into the pool of their jobs. Their store is compared once with that of the pool's jobs.
    pub(crate) fn put_into(&mut self, pool: &mut Pool<'p>)
        ensures batch { self.new ≡ emptied self.old }
        ensures book { PutsAll self.old.pieces pool.old.book pool.new.book }
        ensures known { KnowsAfter self.old.pieces self.old.start pool.old pool.new.knows_start }
        ensures rest { pool.new ≡ record pool.old {
          book = pool.new.book;
          knows_start = pool.new.knows_start;
        } }
    {
        let known = self.starts_as(pool);
        'pieces: while let Some(piece) = self.take() {
            let _ = pool.put_in(piece, known);
        }
    }

    // Takes the last piece off.
    fn take(&mut self) -> Option<Piece<'p>>
        ensures { Takes self.old result self.new }
    {
        match self.pieces.pop() {
            Some(piece) => Some(piece),
            None => None,
        }
    }

    // Whether it is known that all jobs of the pool start from the batch's store.
    fn starts_as(&self, pool: &Pool<'p>) -> bool
        ensures known { IsTrue result
            ↔ (start_of pool.now.knows_start pool.now.book.jobs ≡ Some self.now.start) }
        ensures all { IsTrue result → StartFrom self.now.start pool.now.book.jobs }
    {
        match pool.start() {
            Some(start) => *start == self.start,
            None => false,
        }
    }
}

//! Laws of the writes of a pool: each function's contract is a law, and its body is empty.
ghost use Rattle.forkjoin_sched.specs.Laws.{BooksGivePhases, PoolsGiveConstructs};

/// The writes of a book of the jobs of one phase are those of the phase.
pub fn books_give_phases()
    ensures { BooksGivePhases }
{}

/// The writes of a pool of the jobs of a `par` are those of the `par`.
pub fn pools_give_constructs()
    ensures { PoolsGiveConstructs }
{}

//! The result of a run.
ghost use Rattle.std.specs.Prelude.{◌≡◌, IfOk};
ghost use Rattle.array_tree.specs.Trees.{ProgramTree};
ghost use Rattle.array_meaning.specs.Work.{final_store};
ghost use Rattle.array_jobs.specs.Jobs.{job_of};
ghost use Rattle.array_jobs.specs.Bodies.{body_of};
ghost use Rattle.array_jobs.specs.PieceParts.{piece_of_job};
ghost use Rattle.hart_loop.specs.Journals.{entries_in};

use array_eval::{Overlay, Store};
use array_jobs::{Job, Piece};
use std::alloc::AllocError;
use transfer_table::{Entries, Entry};
use wide_board::WideClosed;
use word_board::Closed;

/// The result of a run.
#[derive(Drop)]
pub struct Outcome {
    /// The value of each cell at the end.
    pub store: Store,
    /// All transfers, in their order.
    pub journal: Journal,
}

/// All transfers of a run, in their order.
#[derive(Drop)]
pub enum Journal {
    /// The list of a single hart's port.
    Listed(Entries),
    /// The journal of a closed word board, on which several harts moved.
    Board(Closed),
    /// The journal of a closed wide board, which has room for more harts.
    Wide(WideClosed),
}

impl Journal {
    /// The entries.
    pub fn entries(&self) -> &[Entry]
        ensures { result.now ≡ entries_in self.now }
    {
        match self {
            Journal::Listed(entries) => entries.as_slice(),
            Journal::Board(closed) => closed.entries(),
            Journal::Wide(closed) => closed.entries(),
        }
    }
}

/// The store after the piece of a program's body.
///
/// # Errors
///
/// `AllocError` if an allocation fails.
///
/// # Memory
///
/// It allocates a list of pages, and each page that it writes.
pub fn store_after(piece: Piece<'_>) -> Result<Store, AllocError>
    ensures { IfOk result (λ store. (program : ProgramTree)
        → job_of piece.entry.job ≡ body_of program → store ≡ final_store program) }
{
    store_of(&piece.job, &piece.written)
}

// The store of a job after its writes.
fn store_of(job: &Job<'_>, written: &Overlay) -> Result<Store, AllocError>
    requires { written.now.pairs ≡ piece_of_job (job_of job.now) }
    ensures { IfOk result (λ store. (program : ProgramTree) → job_of job.now ≡ body_of program
        → store ≡ final_store program) }
{
    job.store.with(written)
}

//! The barrier of one owner.
ghost use Rattle.std.specs.Prelude.{◌≡◌, ◌↔◌, ◌<◌, IsTrue, IfOk, length, map};
ghost use Rattle.array_jobs.specs.Jobs.{job_of};
ghost use Rattle.array_jobs.specs.Groups.{IsGroup};
ghost use Rattle.join_book.specs.Books.{Open, open_book, IsMarked, IsPlaceOf, IsFull, HasFailed, all_writes};
ghost use Rattle.lithe_barrier.specs.Arrivals.{Arrives, IsRoomFor};

use array_eval::{MarkedStore, Overlay};
use array_jobs::{Job, Piece};
use join_book::{Book, Deposit};
use std::alloc::{AllocError, Global};
use std::marker::Model;

/// The result of an arrival.
#[derive(Debug, Drop)]
pub enum Arrival<'p> {
    /// The piece is kept. The barrier waits for others.
    Kept,
    /// The piece was the last one: the writes of all members in this phase, merged in the order of their indices.
    Opened(Overlay),
    /// The piece's job isn't the job of a free slot. The piece is returned.
    Stranger(Piece<'p>),
}

// Room for the writes of the jobs, made before the first piece comes.
#[derive(Debug, Drop)]
pub(crate) struct Room {
    store: MarkedStore,
    overlay: Overlay,
}

/// A barrier that waits for the pieces of one phase, with a slot for each member's job.
///
/// Contracts see it as a book whose slots are open (free) or filled. After the barrier has opened, no slot is free.
#[derive(Debug, Drop)]
pub struct BarrierState<'p> {
    book: Book<'p>,
    room: Option<Room>,
}

impl<'p> Model for BarrierState<'p> {
    ghost use Rattle.std.specs.Coded.{codes};
    ghost use Rattle.array_tree.specs.contracts.tree.Arrays as arrays_type;
    ghost use Rattle.array_tree.specs.contracts.tree.Block as block_type;
    ghost use Rattle.join_book.specs.Books.{BookParts};
    ghost use Rattle.lithe_barrier.specs.Arrivals.{IsWaiting};

    ghost Value = { BookParts };

    ghost coded = { Prim.hlevel (codes, arrays_type.the_row.coded, block_type.the_row.coded) };

    ghost view = { λ barrier. barrier.book };

    ghost invariant = { λ barrier. IsWaiting barrier.book barrier.room };
}

impl<'p> BarrierState<'p> {
    /// A barrier that waits for the pieces of these jobs. They are one to 64 jobs of one site and one phase, each at the index
    /// that it names.
    ///
    /// # Errors
    ///
    /// `AllocError` if an allocation fails.
    ///
    /// # Memory
    ///
    /// It allocates the book, and the store and the overlay of the merge. No other call allocates.
    pub fn new(alloc: Global, jobs: Vec<Job<'p>>) -> Result<BarrierState<'p>, AllocError>
        requires { IsGroup (map job_of jobs.items) }
        ensures { IfOk result (λ barrier. barrier ≡ open_book jobs.entry.items) }
    {
        let book = Book::new(alloc, jobs)?;
        let room = room_for(alloc, &book)?;
        Ok(BarrierState {
            book,
            room: Some(room),
        })
    }

    /// The jobs, in the order of their indices. There is at least one.
    pub fn jobs(&self) -> &[Job<'p>]
        ensures same { result.now ≡ self.now.jobs }
        ensures some { 0 < length self.now.jobs }
    {
        self.book.jobs()
    }

    /// Whether the slot at this index exists and waits for its piece.
    pub fn is_free(&self, place: u8) -> bool
        ensures { IsTrue result ↔ IsMarked self.now place Open }
    {
        self.book.is_open(place)
    }

    /// Puts a piece into the slot of its job, which must be free. The caller knows the slot, so no jobs are compared, and the
    /// result is never `Stranger`.
    pub fn keep(&mut self, piece: Piece<'p>) -> Arrival<'p>
        requires own { IsPlaceOf self.old piece.job.place piece.job }
        requires free { IsMarked self.old piece.job.place Open }
        ensures { Arrives self.old piece.entry result self.new }
    {
        self.book.keep(piece);
        if !self.book.is_full() {
            return Arrival::Kept;
        }
        match self.room.take() {
            Some(room) => Arrival::Opened(merged_writes(&self.book, room)),
            None => unreachable!(),
        }
    }

    /// Puts a piece into the slot of its job.
    pub fn arrive(&mut self, piece: Piece<'p>) -> Arrival<'p>
        ensures { Arrives self.old piece.entry result self.new }
    {
        match self.book.deposit(piece) {
            Deposit::Double(piece) => Arrival::Stranger(piece),
            Deposit::Stranger(piece) => Arrival::Stranger(piece),
            Deposit::Kept => {
                if !self.book.is_full() {
                    return Arrival::Kept;
                }
                match self.room.take() {
                    Some(room) => Arrival::Opened(merged_writes(&self.book, room)),
                    None => unreachable!(),
                }
            }
        }
    }
}

// Room for the writes of all the book's jobs.
fn room_for(alloc: Global, book: &Book) -> Result<Room, AllocError>
    ensures { IfOk result (λ room. IsRoomFor book.now room) }
{
    let store = book.blank_store()?;
    let overlay = Overlay::roomy(alloc, store.count() as u16)?;
    Ok(Room { store, overlay })
}

// The writes of all pieces of a full book. Does not allocate.
fn merged_writes(book: &Book, room: Room) -> Overlay
    requires full { IsFull book.now }
    requires none_failed { ¬ HasFailed book.now }
    requires room { IsRoomFor book.now room }
    ensures { result.pairs ≡ all_writes book.now }
{
    let Room { store, overlay } = room;
    let mut store = store;
    let mut written = overlay;
    book.merge_into(&mut store);
    store.lay_written(&mut written);
    written
}

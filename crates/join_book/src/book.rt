//! Books.
ghost use Rattle.std.specs.Prelude.{◌≡◌, ◌↔◌, IsTrue, IfOk, IsErr, length, map, replicate, slice_get, Some, ℕ, []};
ghost use Rattle.array_meaning.specs.Pieces.{merged, last_writes};
ghost use Rattle.array_eval.specs.Traces.{marked};
ghost use Rattle.join_book.specs.Books.{Open, Filled, Failed, open_book, IsMarked, IsFull, HasFailed, IsBlank, IsPlaceOf, HasPlaceFor, Deposits, Puts, marked_book, with_piece, filled_pieces, all_writes};
ghost use Rattle.array_jobs.specs.Jobs.{JobParts, IsFit, job_of};
ghost use Rattle.join_book.specs.declared.place.Place.TheVariants as place;
ghost use Rattle.array_jobs.specs.Groups.{IsGroup};

use crate::place::Place;
use array_eval::{MarkedStore, Overlay, count_cells};
use array_jobs::{Job, Piece};
use std::alloc::{AllocError, Global};
use std::marker::Model;

/// The result of a deposit.
#[derive(Debug, Drop)]
pub enum Deposit<'p> {
    /// The piece is kept in the slot of its job.
    Kept,
    /// The slot of the piece's job is filled or failed. The piece is returned.
    Double(Piece<'p>),
    /// No slot has the piece's job. The piece is returned.
    Stranger(Piece<'p>),
}

/// The jobs of one phase of a construct, with a slot for the piece of each.
///
/// Contracts see the jobs, and the slots as open, filled or failed. The type's invariant: a filled slot has the writes of its
/// own job.
#[derive(Debug, Drop)]
pub struct Book<'p> {
    alloc: Global,
    jobs: Vec<Job<'p>>,
    places: Vec<Place>,
}

impl<'p> Model for Book<'p> {
    ghost use Rattle.std.specs.Coded.{codes};
    ghost use Rattle.std.specs.Prelude.{map};
    ghost use Rattle.array_tree.specs.contracts.tree.Arrays as arrays_type;
    ghost use Rattle.array_tree.specs.contracts.tree.Block as block_type;
    ghost use Rattle.join_book.specs.Books.{BookParts, IsKept, mark_of};

    ghost Value = { BookParts };

    ghost coded = { Prim.hlevel (codes, arrays_type.the_row.coded, block_type.the_row.coded) };

    ghost view = { λ book. record { jobs = book.jobs.items; places = map mark_of book.places.items } };

    ghost invariant = { λ book. IsKept book.jobs.items book.places.items };
}

impl<'p> Book<'p> {
    /// A book of these jobs, whose slots are open. They are one to 64 jobs of one site and one phase, each at the index that it
    /// names.
    ///
    /// # Errors
    ///
    /// `AllocError` if an allocation fails.
    ///
    /// # Memory
    ///
    /// It allocates a slot for each job. Of the calls below only `blank_store` and `take_all` allocate.
    pub fn new(alloc: Global, jobs: Vec<Job<'p>>) -> Result<Book<'p>, AllocError>
        requires { IsGroup (map job_of jobs.items) }
        ensures { IfOk result (λ book. book ≡ open_book jobs.entry.items) }
    {
        let places = open_places(alloc, &jobs)?;
        Ok(Book {
            alloc,
            jobs,
            places,
        })
    }

    /// The jobs, in the order of their indices.
    pub fn jobs(&self) -> &[Job<'p>]
        ensures { result.now ≡ self.now.jobs }
    {
        &self.jobs
    }

    /// Whether the slot at this index exists and is open.
    pub fn is_open(&self, place: u8) -> bool
        ensures { IsTrue result ↔ IsMarked self.now place Open }
    {
        match self.places.get(usize::from(place)) {
            Some(place) => place.is_open(),
            None => false,
        }
    }

    /// Puts a piece into the slot of its job.
    pub fn deposit(&mut self, piece: Piece<'p>) -> Deposit<'p>
        ensures { Deposits self.old piece.entry result self.new }
    {
        let place = piece.job.place;
        if !self.is_place_of(place, &piece.job) {
            return Deposit::Stranger(piece);
        }
        if !self.is_open(place) {
            return Deposit::Double(piece);
        }
        self.keep(piece);
        Deposit::Kept
    }

    /// Puts a piece into the slot of its job, which must be open. The caller knows the slot, so no jobs are compared.
    pub fn keep(&mut self, piece: Piece<'p>)
        requires own { IsPlaceOf self.old piece.job.place piece.job }
        requires open { IsMarked self.old piece.job.place Open }
        ensures { self.new ≡ marked_book self.old piece.entry.job.place Filled }
    {
        let Piece { job, written } = piece;
        self.places[usize::from(job.place)] = Place::Filled(written);
    }

    /// Puts a piece into the slot that its job names, with that job instead of the slot's own. It doesn't compare the jobs,
    /// except for the number of cells from which they start; so a caller that wants the pieces of certain jobs compares `jobs`
    /// with them. Returns `Stranger` exactly if there is no such slot, or its job starts from another number of cells.
    pub fn put(&mut self, piece: Piece<'p>) -> Deposit<'p>
        ensures { Puts self.old piece.entry result self.new }
    {
        if !self.has_place_for(&piece.job) {
            return Deposit::Stranger(piece);
        }
        if !self.is_open(piece.job.place) {
            return Deposit::Double(piece);
        }
        self.take_in(piece);
        Deposit::Kept
    }

    // Puts a piece into its slot, with its job.
    fn take_in(&mut self, piece: Piece<'p>)
        requires place { HasPlaceFor self.old piece.job }
        requires open { IsMarked self.old piece.job.place Open }
        ensures { self.new ≡ with_piece self.old piece.entry }
    {
        let Piece { job, written } = piece;
        let place = usize::from(job.place);
        self.jobs[place] = job;
        self.places[place] = Place::Filled(written);
    }

    /// Marks a slot as failed: an allocation failed for its piece. The slot must be open.
    pub fn fail(&mut self, place: u8)
        requires { IsMarked self.old place Open }
        ensures { self.new ≡ marked_book self.old place Failed }
    {
        self.places[usize::from(place)] = Place::Failed;
    }

    /// Whether every slot is filled or failed.
    pub fn is_full(&self) -> bool
        ensures { IsTrue result ↔ IsFull self.now }
    {
        for place in &self.places {
            if place.is_open() {
                return false;
            }
        }
        true
    }

    /// Whether some slot is failed.
    pub fn has_failed(&self) -> bool
        ensures { IsTrue result ↔ HasFailed self.now }
    {
        for place in &self.places {
            if place.is_failed() {
                return true;
            }
        }
        false
    }

    /// A store of the jobs' cells, none of which is marked, for merging the pieces.
    ///
    /// # Errors
    ///
    /// `AllocError` if an allocation fails.
    ///
    /// # Memory
    ///
    /// It allocates a marked store.
    pub fn blank_store(&self) -> Result<MarkedStore, AllocError>
        ensures { IfOk result (λ store. IsBlank self.now store) }
    {
        MarkedStore::new(self.alloc, &self.jobs[0].store)
    }

    /// Merges the pieces of the filled slots into a blank store, in the order of their indices. Does not allocate.
    pub fn merge_into(&self, store: &mut MarkedStore)
        requires { IsBlank self.now store.old }
        ensures filled { marked store.new
            ≡ merged (filled_pieces self.now.jobs self.now.places) [] }
        ensures all { IsFull self.now → (¬ HasFailed self.now)
            → last_writes (marked store.new) ≡ all_writes self.now }
        ensures cells { length store.new.cells ≡ length store.old.cells }
    {
        for place in &self.places {
            if let Place::Filled(written) = place {
                store.merge(written);
            }
        }
    }

    /// The writes of all pieces, merged in the order of their indices. The book must be full.
    ///
    /// # Errors
    ///
    /// `AllocError` if a piece has failed, or an allocation fails.
    ///
    /// # Memory
    ///
    /// It allocates a store and the overlay.
    pub fn take_all(self) -> Result<Overlay, AllocError>
        requires { IsFull self }
        ensures failed { HasFailed self.entry → IsErr result }
        ensures written { IfOk result (λ overlay. overlay.pairs ≡ all_writes self.entry) }
    {
        if self.has_failed() {
            return Err(AllocError);
        }
        let mut store = self.blank_store()?;
        self.merge_into(&mut store);
        store.written(self.alloc)
    }

    // Whether the slot that the job names exists, and the slot's own job starts from as many cells.
    fn has_place_for(&self, job: &Job) -> bool
        ensures { IsTrue result ↔ HasPlaceFor self.now job.now }
    {
        match self.jobs.get(usize::from(job.place)) {
            Some(own) => count_cells(own.arrays) == count_cells(job.arrays),
            None => false,
        }
    }

    // Whether the slot at this index belongs to the job.
    fn is_place_of(&self, place: u8, job: &Job) -> bool
        ensures own { IsTrue result ↔ IsPlaceOf self.now place job.now }
        ensures alone { (i : ℕ) → IsPlaceOf self.now i job.now → i ≡ job.now.place }
    {
        match self.jobs.get(usize::from(place)) {
            Some(own) => *own == *job,
            None => false,
        }
    }
}

// An open slot for each job. Why it reads the jobs: each job is fit by its invariant.
fn open_places(alloc: Global, jobs: &[Job]) -> Result<Vec<Place>, AllocError>
    ensures all_open { IfOk result
        (λ places. places.items ≡ replicate (length jobs.now) place.Open) }
    ensures fit { IfOk result
        (λ _. (i : ℕ) → (job : JobParts) → slice_get jobs.now i ≡ Some job → IsFit (job_of job)) }
{
    let mut places = Vec::with_capacity(alloc, jobs.len())?;
    for job in jobs {
        // Why: reading a field makes the job's invariant known.
        let _place = job.place;
        places.push(Place::Open)?;
    }
    Ok(places)
}

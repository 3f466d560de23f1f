//! Pools.
ghost use Rattle.std.specs.Prelude.{◌≡◌, ◌↔◌, ◌<◌, [], true, false, IsTrue, IfOk, IfSome, IsErr, map, length, option_map};
ghost use Rattle.sched_api.specs.Wishes.{with_wishes};
ghost use Rattle.array_jobs.specs.Jobs.{job_of};
ghost use Rattle.array_jobs.specs.Groups.{IsGroup};
ghost use Rattle.sched_api.specs.Agenda.{GivesReady};
ghost use Rattle.lithe_mutex.specs.Mutex.{Free, Held};
ghost use Rattle.join_book.specs.Books.{Open, Filled, Failed, IsMarked, IsPlaceOf, IsFull, HasFailed, Deposits, Puts, marked_book, all_writes};
ghost use Rattle.step_eval.specs.declared.work.Work.TheVariants.{Begin};
ghost use Rattle.forkjoin_sched.specs.Pools.{StartFrom, HaveOneStart, start_of, new_pool, roomy_pool, Answers, Hears, Takes, free_book, with_book, with_agenda, GivesJob};

use crate::same_jobs::known_start;
use array_eval::{Overlay, Store};
use array_jobs::{Job, Piece};
use join_book::{Book, Deposit};
use lithe_mutex::{Acquired, MutexState};
use sched_api::{Agenda, Call, Heard, MOST_WISHES, Next, Scheduler};
use std::alloc::{AllocError, Global};
use std::collections::VecDeque;
use std::marker::Model;
use step_eval::Work;

/// What makes the receipts of a pool. Only this crate can make it.
#[derive(Drop)]
pub struct PoolSeal(());

/// The receipt of a callback of a pool.
pub type PoolHeard = Heard<PoolSeal>;

// Only callbacks call this function.
pub(crate) fn heard(call: Call, child: u16, count: u8) -> PoolHeard
    ensures { result ≡ record { call = call; child = child; count = count } }
{
    Heard::new(PoolSeal(()), call, child, count)
}

/// What a hart takes from a pool.
pub type PoolWork<'p> = Work<'p>;

/// The scheduler of one `par`. It has the pieces that are not begun, the contexts that are ready to go on, and the wishes of
/// its children. The book of its pieces is under a mutex, which each call holds to its end.
#[derive(Drop)]
pub struct Pool<'p> {
    site: u16,
    agenda: Agenda<PoolWork<'p>>,
    book: MutexState<Book<'p>, ()>,
    // Whether all jobs of the book are known to start from one store.
    knows_start: bool,
}

impl<'p> Model for Pool<'p> {
    ghost use Rattle.std.specs.Prelude.{◌≡◌, IsTrue};
    ghost use Rattle.std.specs.Coded.{codes};
    ghost use Rattle.array_tree.specs.contracts.tree.Arrays as arrays_type;
    ghost use Rattle.array_tree.specs.contracts.tree.Block as block_type;
    ghost use Rattle.step_eval.specs.contracts.stage.Stage as stage_type;
    ghost use Rattle.step_eval.specs.Inside.Codes.{coded_sequence};
    ghost use Rattle.lithe_mutex.specs.Mutex.{Free};
    ghost use Rattle.forkjoin_sched.specs.Pools.{PoolParts, HaveOneStart, free_book};

    ghost Value = { PoolParts };

    ghost coded = { Prim.hlevel (codes, arrays_type.the_row.coded, block_type.the_row.coded, stage_type.the_row.coded, coded_sequence) };

    ghost view = { λ pool. record {
      site = pool.site;
      agenda = pool.agenda;
      book = free_book pool.book.possession;
      knows_start = pool.knows_start;
    } };

    ghost invariant = { λ pool. (pool.book.possession ≡ Free (free_book pool.book.possession))
        × (IsTrue pool.knows_start → HaveOneStart (free_book pool.book.possession).jobs) };
}

impl<'p> Pool<'p> {
    /// A pool of these jobs, none of which is begun. They are one to 64 jobs of one site and one phase, each at the index that
    /// it names.
    ///
    /// # Errors
    ///
    /// `AllocError` if an allocation fails.
    ///
    /// # Memory
    ///
    /// It allocates the book, the room for wishes and for ready contexts. Of the other calls only `take_all` allocates.
    pub fn new(alloc: Global, jobs: Vec<Job<'p>>) -> Result<Pool<'p>, AllocError>
        requires { IsGroup (map job_of jobs.items) }
        ensures { IfOk result (λ pool. pool ≡ new_pool jobs.entry.items) }
    {
        Pool::with_wishes(alloc, jobs, MOST_WISHES)
    }

    /// The pool that `new` makes, with room for `wishes` wishes. A wish beyond the room is dropped.
    ///
    /// # Errors
    ///
    /// `AllocError` if an allocation fails.
    ///
    /// # Memory
    ///
    /// It allocates as `new` does.
    pub fn with_wishes(
        alloc: Global,
        jobs: Vec<Job<'p>>,
        wishes: usize,
    ) -> Result<Pool<'p>, AllocError>
        requires { IsGroup (map job_of jobs.items) }
        ensures { IfOk result (λ pool. pool ≡ roomy_pool jobs.entry.items wishes) }
    {
        pool_of(alloc, jobs, wishes, false)
    }

    /// The pool that `with_wishes` makes, of jobs that all start from one store.
    ///
    /// # Errors
    ///
    /// `AllocError` if an allocation fails.
    ///
    /// # Memory
    ///
    /// It allocates as `new` does.
    pub fn of_one_start(
        alloc: Global,
        jobs: Vec<Job<'p>>,
        wishes: usize,
    ) -> Result<Pool<'p>, AllocError>
        requires group { IsGroup (map job_of jobs.items) }
        requires start { HaveOneStart jobs.items }
        ensures { IfOk result
            (λ pool. pool ≡ record (roomy_pool jobs.entry.items wishes) { knows_start = true }) }
    {
        pool_of(alloc, jobs, wishes, true)
    }

    // Whether all jobs are known to start from one store.
    pub(crate) fn knows_start(&self) -> bool
        ensures known { result ≡ self.now.knows_start }
        ensures one { IsTrue result → HaveOneStart self.now.book.jobs }
    {
        self.knows_start
    }

    /// The store from which all jobs start, if they are known to start from one: if `of_one_start` made the pool, and `put` hasn't
    /// put a piece in.
    pub fn start(&self) -> Option<&Store>
        ensures known { option_map (λ start. start.now) result
            ≡ start_of self.now.knows_start self.now.book.jobs }
        ensures all { IfSome result (λ start. StartFrom start.now self.now.book.jobs) }
    {
        known_start(self.jobs(), self.knows_start())
    }

    /// The number of ready contexts.
    pub fn ready_count(&self) -> usize
        ensures { result ≡ length self.now.agenda.ready }
    {
        self.agenda.ready_count()
    }

    /// Takes the first ready context, if there is one.
    pub fn take_ready(&mut self) -> Option<PoolWork<'p>>
        ensures agenda { GivesReady self.old.agenda result self.new.agenda }
        ensures rest { self.new ≡ with_agenda self.old self.new.agenda }
    {
        self.agenda.take_ready()
    }

    /// Takes the last of the jobs that aren't begun, if it has this index.
    pub fn take_last(&mut self, place: usize) -> Option<Job<'p>>
        ensures { GivesJob self.old place result self.new }
    {
        match self.agenda.last_unbegun() {
            Some(PoolWork::Begin(job)) if usize::from(job.place) == place => {}
            Some(_) => return None,
            None => return None,
        }
        match self.agenda.take_last() {
            Some(PoolWork::Begin(job)) => Some(job),
            Some(PoolWork::Ready(_)) => unreachable!(),
            None => unreachable!(),
        }
    }

    /// Puts a piece into the slot of its job.
    pub fn deposit(&mut self, piece: Piece<'p>) -> Deposit<'p>
        ensures book { Deposits self.old.book piece.entry result self.new.book }
        ensures rest { self.new ≡ with_book self.old self.new.book }
    {
        let mut book = acquire(&mut self.book);
        let deposit = book.deposit(piece);
        self.book.release(book);
        deposit
    }

    /// Puts a piece into the slot that its job names, with that job instead of the slot's own, as `put` of the book does.
    pub fn put(&mut self, piece: Piece<'p>) -> Deposit<'p>
        ensures book { Puts self.old.book piece.entry result self.new.book }
        ensures rest { self.new ≡ record self.old { book = self.new.book; knows_start = false } }
    {
        self.put_in(piece, false)
    }

    /// What `put` does. `known`: all jobs of the pool start from the store of the piece's job, so they still do.
    pub(crate) fn put_in(&mut self, piece: Piece<'p>, known: bool) -> Deposit<'p>
        requires { IsTrue known → StartFrom piece.job.store self.old.book.jobs }
        ensures book { Puts self.old.book piece.entry result self.new.book }
        ensures rest { self.new ≡ record self.old { book = self.new.book; knows_start = known } }
    {
        self.knows_start = known;
        let mut book = acquire(&mut self.book);
        let deposit = book.put(piece);
        self.book.release(book);
        deposit
    }

    /// Puts a piece into the slot of its job, which must be open. The caller knows the slot, so no jobs are compared.
    pub fn keep(&mut self, piece: Piece<'p>)
        requires own { IsPlaceOf self.old.book piece.job.place piece.job }
        requires open { IsMarked self.old.book piece.job.place Open }
        ensures { self.new ≡ with_book self.old
            (marked_book self.old.book piece.entry.job.place Filled) }
    {
        let mut book = acquire(&mut self.book);
        book.keep(piece);
        self.book.release(book);
    }

    /// Whether the slot at this index exists and is open.
    pub fn is_open(&self, place: u8) -> bool
        ensures { IsTrue result ↔ IsMarked self.now.book place Open }
    {
        self.book().is_open(place)
    }

    /// Marks a slot as failed: an allocation failed for its piece. The slot must be open, which a caller tests by `is_open`; a
    /// hand does so under the lock.
    pub fn fail(&mut self, place: u8)
        requires { IsMarked self.old.book place Open }
        ensures { self.new ≡ with_book self.old (marked_book self.old.book place Failed) }
    {
        let mut book = acquire(&mut self.book);
        book.fail(place);
        self.book.release(book);
    }

    /// Whether every slot is filled or failed.
    pub fn is_full(&self) -> bool
        ensures { IsTrue result ↔ IsFull self.now.book }
    {
        self.book().is_full()
    }

    /// Whether some slot is failed.
    pub fn has_failed(&self) -> bool
        ensures { IsTrue result ↔ HasFailed self.now.book }
    {
        self.book().has_failed()
    }

    /// The jobs, in the order of their indices: those of the pool, and of pieces that were put in.
    pub fn jobs(&self) -> &[Job<'p>]
        ensures { result.now ≡ self.now.book.jobs }
    {
        self.book().jobs()
    }

    // The book, which is free between calls.
    fn book(&self) -> &Book<'p>
        ensures { result.now ≡ self.now.book }
    {
        match self.book.value() {
            Some(book) => book,
            None => unreachable!(),
        }
    }

    /// The writes of all pieces, merged in the order of their indices. Every piece must be filled or failed.
    ///
    /// # Errors
    ///
    /// `AllocError` if a piece has failed, or an allocation fails.
    ///
    /// # Memory
    ///
    /// It allocates a store and the overlay.
    pub fn take_all(self) -> Result<Overlay, AllocError>
        requires { IsFull self.book }
        ensures failed { HasFailed self.entry.book → IsErr result }
        ensures written { IfOk result (λ overlay. overlay.pairs ≡ all_writes self.entry.book) }
    {
        let Pool { mut book, .. } = self;
        acquire(&mut book).take_all()
    }
}

// Acquires the book of a pool, which is free between calls.
fn acquire<'p>(mutex: &mut MutexState<Book<'p>, ()>) -> Book<'p>
    requires { mutex.old.possession ≡ Free (free_book mutex.old.possession) }
    ensures got { result ≡ free_book mutex.old.possession }
    ensures held { mutex.new.possession ≡ Held [] }
{
    match mutex.acquire(()) {
        Acquired::Got(book, ()) => book,
        Acquired::Kept => unreachable!(),
    }
}

// The pool of these jobs, with room for so many wishes. `knows_start`: all jobs start from one store.
fn pool_of<'p>(
    alloc: Global,
    jobs: Vec<Job<'p>>,
    wishes: usize,
    knows_start: bool,
) -> Result<Pool<'p>, AllocError>
    requires group { IsGroup (map job_of jobs.items) }
    requires start { IsTrue knows_start → HaveOneStart jobs.items }
    ensures { IfOk result (λ pool. pool
        ≡ record (roomy_pool jobs.entry.items wishes) { knows_start = knows_start }) }
{
    let site = jobs[0].site;
    let count = jobs.len();
    let unbegun = unbegun_work(alloc, &jobs)?;
    let agenda = Agenda::new(alloc, count, wishes, unbegun)?;
    let book = MutexState::new(alloc, 0, Book::new(alloc, jobs)?)?;
    Ok(Pool {
        site,
        agenda,
        book,
        knows_start,
    })
}

// Each job as work that isn't begun. Why a copy: the book keeps the jobs, to recognise pieces that aren't its own.
fn unbegun_work<'p>(alloc: Global, jobs: &[Job<'p>]) -> Result<VecDeque<PoolWork<'p>>, AllocError>
    ensures { IfOk result (λ work. work.items ≡ map Begin jobs.now) }
{
    let mut unbegun = VecDeque::with_capacity(alloc, jobs.len())?;
    for job in jobs {
        unbegun.push_back(PoolWork::Begin(job.copy()?))?;
    }
    Ok(unbegun)
}

impl<'p> Scheduler for Pool<'p> {
    type Hold = ();

    type Heard = PoolHeard;

    type Ctx = PoolWork<'p>;

    ghost site_of = { λ pool. pool.site };

    ghost answers = { λ before next after. Answers before next after };

    ghost hears = { λ before told after. Hears before told after };

    ghost takes = { λ before c answer after. Takes before c answer after };

    fn site(&self) -> u16 {
        self.site
    }

    fn register(&mut self, _hold: (), child: u16) -> PoolHeard {
        heard(Call::Registered, child, 0)
    }

    fn unregister(&mut self, _hold: (), child: u16) -> PoolHeard {
        self.agenda.remove_wishes(child);
        heard(Call::Unregistered, child, 0)
    }

    fn request(&mut self, _hold: (), child: u16, count: u8) -> PoolHeard {
        self.agenda.add_wishes(child, count);
        heard(Call::Requested, child, count)
    }

    fn yielded(&mut self, _hold: (), child: u16) -> PoolHeard {
        heard(Call::Yielded, child, 0)
    }

    fn enter(&mut self, _hold: ()) -> Next<PoolWork<'p>> {
        self.agenda.take_next()
    }

    fn block(&mut self, _hold: ()) -> PoolHeard {
        heard(Call::Blocked, 0, 0)
    }

    fn unblock(&mut self, _hold: (), c: PoolWork<'p>) -> Result<(), PoolWork<'p>> {
        self.agenda.put_ready(c)
    }
}

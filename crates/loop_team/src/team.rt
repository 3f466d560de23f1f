//! Teams.
ghost use Rattle.std.specs.Prelude.{◌≡◌, ◌↔◌, ◌+◌, ◌<◌, IsTrue, IfOk, IsErr, MatchOption, OnOk, OnErr, Some, true, length, map};
ghost use Rattle.sched_api.specs.Wishes.{with_wishes};
ghost use Rattle.array_tree.specs.Trees.{statement_of};
ghost use Rattle.join_book.specs.Books.{Open, IsMarked, IsPlaceOf, IsFull};
ghost use Rattle.step_eval.specs.declared.shape.Kind.TheVariants as kind;
ghost use Rattle.step_eval.specs.Inside.Computed.{HasReached};
ghost use Rattle.step_eval.specs.Nests.{nested_of, nested_writes, IsFitNest};
ghost use Rattle.step_eval.specs.Shapes.{kind_of};
ghost use Rattle.step_eval.specs.declared.work.Work.TheVariants.{Begin};
ghost use Rattle.array_jobs.specs.Jobs.{job_of};
ghost use Rattle.loop_team.specs.Stripes.{StartsFrom, IsAwaited, IsNotAwaited};
ghost use Rattle.loop_team.specs.Teams.{IsNew, IsRoomy, IsOver, MovesOn, GoesOn, Answers, Hears, Takes, TakesReady, TakesMember, IsPhase, phases_in, writes_in, opened_team, failed_team};

use array_eval::{MarkedStore, Overlay, Store};
use array_jobs::{Job, Piece};
use lithe_barrier::{Arrival, BarrierState};
use sched_api::{Agenda, Call, Heard, MOST_WISHES, Next, Scheduler};
use std::alloc::{AllocError, Global};
use std::collections::VecDeque;
use std::marker::Model;
use std::mem;
use step_eval::{Nested, Work, jobs_of};

/// What makes the receipts of a team. Only this crate can make it.
#[derive(Drop)]
pub struct TeamSeal(());

/// The receipt of a callback of a team.
pub type TeamHeard = Heard<TeamSeal>;

// Only callbacks call this function.
pub(crate) fn heard(call: Call, child: u16, count: u8) -> TeamHeard
    ensures { result ≡ record { call = call; child = child; count = count } }
{
    Heard::new(TeamSeal(()), call, child, count)
}

/// What a hart takes from a team.
pub type TeamWork<'p> = Work<'p>;

/// The scheduler of one `team`. It has the members that haven't begun the current phase, the contexts that are ready to go on,
/// and the wishes of its children. It also has the barrier of the phase, and the store that the earlier phases left.
#[derive(Drop)]
pub struct Team<'p> {
    alloc: Global,
    nested: Nested<'p>,
    agenda: Agenda<TeamWork<'p>>,
    opened: u8,
    barrier: BarrierState<'p>,
    // Its cells are the start of the next phase, and its marks the result of `take_all`. Why: opening a phase then merges only
    // that phase.
    store: MarkedStore,
    failed: bool,
}

impl<'p> Model for Team<'p> {
    ghost use Rattle.std.specs.Coded.{codes};
    ghost use Rattle.array_tree.specs.contracts.tree.Arrays as arrays_type;
    ghost use Rattle.array_tree.specs.contracts.tree.Block as block_type;
    ghost use Rattle.array_tree.specs.contracts.tree.Stmt as stmt_type;
    ghost use Rattle.step_eval.specs.contracts.stage.Stage as stage_type;
    ghost use Rattle.step_eval.specs.Inside.Codes.{coded_sequence};
    ghost use Rattle.loop_team.specs.Teams.{TeamParts, IsKept};

    ghost Value = { TeamParts };

    ghost coded = { Prim.hlevel (codes, arrays_type.the_row.coded, block_type.the_row.coded, stmt_type.the_row.coded, stage_type.the_row.coded, coded_sequence) };

    ghost view = { λ team. record { nested = team.nested; agenda = team.agenda; opened = team.opened; barrier = team.barrier; failed = team.failed } };

    ghost invariant = { λ team. IsKept record {
      nested = team.nested;
      agenda = team.agenda;
      opened = team.opened;
      barrier = team.barrier;
      failed = team.failed;
    } team.store };
}

impl<'p> Team<'p> {
    /// A team whose first phase can be begun. The construct must be a `team`.
    ///
    /// # Errors
    ///
    /// `AllocError` if an allocation fails.
    ///
    /// # Memory
    ///
    /// It allocates all room, with room for one ready context for each member. Of the other calls only `arrive`, `keep` and
    /// `take_all` allocate.
    pub fn new(alloc: Global, nested: Nested<'p>) -> Result<Team<'p>, AllocError>
        requires { kind_of (statement_of nested.construct) ≡ Some kind.Team }
        ensures { IfOk result (λ team. IsNew nested.entry team) }
    {
        Team::with_wishes(alloc, nested, MOST_WISHES)
    }

    /// The team that `new` makes, with room for `wishes` wishes. A wish beyond the room is dropped.
    ///
    /// # Errors
    ///
    /// `AllocError` if an allocation fails.
    ///
    /// # Memory
    ///
    /// It allocates as `new` does.
    pub fn with_wishes(
        alloc: Global,
        nested: Nested<'p>,
        wishes: usize,
    ) -> Result<Team<'p>, AllocError>
        requires { kind_of (statement_of nested.construct) ≡ Some kind.Team }
        ensures { IfOk result (λ team. IsRoomy nested.entry wishes team) }
    {
        let mut store = MarkedStore::new(alloc, &nested.store)?;
        let _phases = nested.phases();
        let members = usize::from(nested.members());
        let Phase { barrier, unbegun } = phase_of(alloc, &nested, 0, &mut store)?;
        let agenda = Agenda::new(alloc, members, wishes, unbegun)?;
        Ok(Team {
            alloc,
            nested,
            agenda,
            opened: 0,
            barrier,
            store,
            failed: false,
        })
    }

    /// The construct, with the variables and the store before it.
    pub fn nested(&self) -> &Nested<'p>
        ensures same { result.now ≡ self.now.nested }
        ensures fit { IsFitNest (nested_of self.now.nested) }
    {
        &self.nested
    }

    // The number of phases that have opened.
    pub(crate) fn opened(&self) -> u8
        ensures { result ≡ self.now.opened }
    {
        self.opened
    }

    // The jobs of the current phase, or of the last one.
    pub(crate) fn jobs(&self) -> &[Job<'p>]
        ensures { result.now ≡ self.now.barrier.jobs }
    {
        self.barrier.jobs()
    }

    // The store from which they start.
    pub(crate) fn start(&self) -> &Store
        ensures { StartsFrom self.now result.now }
    {
        let jobs = self.barrier.jobs();
        let first = &jobs[0];
        &first.store
    }

    // The job at an index whose piece is awaited.
    pub(crate) fn open_job(&self, place: u8) -> Option<&Job<'p>>
        ensures { MatchOption result (IsNotAwaited self.now place)
            (λ job. IsAwaited self.now place job.now) }
    {
        if self.is_open(place) {
            self.barrier.jobs().get(usize::from(place))
        } else {
            None
        }
    }

    // The number of ready contexts.
    pub(crate) fn ready_count(&self) -> usize
        ensures { result ≡ length self.now.agenda.ready }
    {
        self.agenda.ready_count()
    }

    // Takes the oldest ready context, if there is one.
    pub(crate) fn take_ready(&mut self) -> Option<TeamWork<'p>>
        ensures { TakesReady self.old result self.new }
    {
        self.agenda.take_ready()
    }

    // Takes the lowest member that hasn't begun, if there is one.
    pub(crate) fn take_member(&mut self) -> Option<Job<'p>>
        ensures { TakesMember self.old result self.new }
    {
        match self.agenda.take_unbegun() {
            Some(TeamWork::Begin(job)) => Some(job),
            Some(TeamWork::Ready(_)) => unreachable!(),
            None => None,
        }
    }

    /// Takes a piece to the barrier of the current phase. If the barrier opens, the team adds the phase's writes to its store,
    /// and the members of the next phase can be begun.
    ///
    /// # Errors
    ///
    /// `AllocError` if an allocation for the next phase fails. The team is then failed: the phase that opened was its last one.
    ///
    /// # Memory
    ///
    /// It allocates the jobs and the barrier of the next phase.
    pub fn arrive(&mut self, piece: Piece<'p>) -> Result<Arrival<'p>, AllocError>
        ensures { MovesOn self.old piece.entry result self.new }
    {
        match self.barrier.arrive(piece) {
            Arrival::Kept => Ok(Arrival::Kept),
            Arrival::Stranger(piece) => Ok(Arrival::Stranger(piece)),
            Arrival::Opened(written) => {
                self.go_on(&written)?;
                Ok(Arrival::Opened(written))
            }
        }
    }

    /// Takes a piece to the barrier of the current phase, as `arrive` does. The slot of its job must be open.
    ///
    /// The caller knows the slot, so no jobs are compared.
    ///
    /// # Errors
    ///
    /// `AllocError` if an allocation fails.
    ///
    /// # Memory
    ///
    /// It allocates as `arrive` does.
    pub fn keep(&mut self, piece: Piece<'p>) -> Result<Arrival<'p>, AllocError>
        requires own { IsPlaceOf self.old.barrier piece.job.place piece.job }
        requires open { IsMarked self.old.barrier piece.job.place Open }
        ensures { MovesOn self.old piece.entry result self.new }
    {
        match self.barrier.keep(piece) {
            Arrival::Kept => Ok(Arrival::Kept),
            Arrival::Stranger(piece) => Ok(Arrival::Stranger(piece)),
            Arrival::Opened(written) => {
                self.go_on(&written)?;
                Ok(Arrival::Opened(written))
            }
        }
    }

    // What `arrive` does with a piece. If the phase's jobs are known to start from the store of the piece's job, stores aren't
    // compared.
    pub(crate) fn take_in(
        &mut self,
        piece: Piece<'p>,
        known: bool,
    ) -> Result<Arrival<'p>, AllocError>
        requires { IsTrue known → StartsFrom self.old piece.job.store }
        ensures { MovesOn self.old piece.entry result self.new }
    {
        if known && self.waits_for(&piece.job) {
            self.keep(piece)
        } else {
            self.arrive(piece)
        }
    }

    // Whether the piece of the job is awaited, if the phase's jobs start from its store.
    fn waits_for(&self, job: &Job) -> bool
        requires { StartsFrom self.now job.now.store }
        ensures { IsTrue result → IsPlaceOf self.now.barrier job.now.place job.now × IsMarked self.now.barrier job.now.place Open }
    {
        match self.open_job(job.place) {
            Some(own) => are_same_work(own, job),
            None => false,
        }
    }

    // Goes on after the current phase has opened, with these writes.
    fn go_on(&mut self, written: &Overlay) -> Result<(), AllocError>
        requires full { IsFull self.old.barrier }
        requires phase { self.old.opened < phases_in self.old.nested }
        requires written { written.now.pairs ≡ writes_in self.old.nested self.old.opened }
        ensures ok { OnOk result (GoesOn (opened_team self.old) self.new) }
        ensures err { OnErr result
            ((¬ IsOver (opened_team self.old)) × (self.new ≡ failed_team (opened_team self.old))) }
    {
        let phases = self.nested.phases();
        lay_phase(&self.nested, self.opened, &mut self.store, written);
        self.opened += 1;
        if self.failed || self.opened == phases {
            return Ok(());
        }
        match phase_of(self.alloc, &self.nested, self.opened, &mut self.store) {
            Ok(Phase { barrier, unbegun }) => {
                let _ = mem::replace(&mut self.barrier, barrier);
                self.agenda.begin(unbegun);
                Ok(())
            }
            Err(refused) => {
                self.failed = true;
                Err(refused)
            }
        }
    }

    /// Whether the slot at this index exists in the current phase and waits for its piece.
    pub fn is_open(&self, place: u8) -> bool
        ensures { IsTrue result ↔ IsMarked self.now.barrier place Open }
    {
        self.barrier.is_free(place)
    }

    /// Reports that an allocation failed for the piece at an index. Its slot must be open. The team is then failed, and no
    /// member of a later phase begins. The team doesn't record the index, and its other slots still take pieces.
    pub fn fail(&mut self, place: u8)
        requires { IsMarked self.old.barrier place Open }
        ensures { self.new ≡ failed_team self.old }
    {
        self.failed = true;
    }

    /// Whether an allocation failed for some piece, or for the jobs of a phase.
    pub fn has_failed(&self) -> bool
        ensures { result ≡ self.now.failed }
    {
        self.failed
    }

    /// Whether the last phase has opened or the team is failed.
    pub fn is_over(&self) -> bool
        ensures { IsTrue result ↔ IsOver self.now }
    {
        self.failed || self.opened == self.nested.phases()
    }

    /// What the whole construct writes: each cell with its last value. The team must be over.
    ///
    /// # Errors
    ///
    /// `AllocError` if the team is failed, or an allocation fails.
    ///
    /// # Memory
    ///
    /// It allocates the overlay.
    pub fn take_all(self) -> Result<Overlay, AllocError>
        requires { IsOver self }
        ensures failed { self.entry.failed ≡ true → IsErr result }
        ensures written { IfOk result
            (λ overlay. overlay.pairs ≡ nested_writes (nested_of self.entry.nested)) }
    {
        if self.failed {
            return Err(AllocError);
        }
        self.store.written(self.alloc)
    }
}

// Adds the writes of a phase to the store that the earlier phases left.
fn lay_phase(nested: &Nested, phase: u8, store: &mut MarkedStore, written: &Overlay)
    requires fit { IsFitNest (nested_of nested.now) }
    requires phase { phase < phases_in nested.now }
    requires reached { HasReached (nested_of nested.now) phase store.old }
    requires written { written.now.pairs ≡ writes_in nested.now phase }
    ensures { HasReached (nested_of nested.now) (phase + 1) store.new }
{
    store.merge(written);
}

// A phase that is to begin.
struct Phase<'p> {
    barrier: BarrierState<'p>,
    unbegun: VecDeque<TeamWork<'p>>,
}

// The phase after this many, over the store that they left.
fn phase_of<'p>(
    alloc: Global,
    nested: &Nested<'p>,
    phase: u8,
    store: &mut MarkedStore,
) -> Result<Phase<'p>, AllocError>
    requires phase { phase < phases_in nested.now }
    requires reached { HasReached (nested_of nested.now) phase store.old }
    ensures phase { IfOk result (λ next. IsPhase nested.now phase next) }
    ensures same { store.new ≡ store.old }
{
    let start = store.to_store(alloc)?;
    let jobs = jobs_of(alloc, nested, phase, &start)?;
    let unbegun = unbegun_work(alloc, &jobs)?;
    let barrier = BarrierState::new(alloc, jobs)?;
    Ok(Phase { barrier, unbegun })
}

// Each job as a member that hasn't begun.
fn unbegun_work<'p>(alloc: Global, jobs: &[Job<'p>]) -> Result<VecDeque<TeamWork<'p>>, AllocError>
    ensures { IfOk result (λ work. work.items ≡ map Begin jobs.now) }
{
    let mut unbegun = VecDeque::with_capacity(alloc, jobs.len())?;
    for job in jobs {
        unbegun.push_back(TeamWork::Begin(job.copy()?))?;
    }
    Ok(unbegun)
}

// Whether two jobs that start from one store are equal.
fn are_same_work(a: &Job, b: &Job) -> bool
    requires { a.now.store ≡ b.now.store }
    ensures { IsTrue result ↔ (job_of a.now ≡ job_of b.now) }
{
    a.site == b.site
        && a.phase == b.phase
        && a.place == b.place
        && a.first == b.first
        && a.work == b.work
        && a.vars == b.vars
        && *a.arrays == *b.arrays
}

impl<'p> Scheduler for Team<'p> {
    type Hold = ();

    type Heard = TeamHeard;

    type Ctx = TeamWork<'p>;

    ghost site_of = { λ team. team.nested.site };

    ghost answers = { λ before next after. Answers before next after };

    ghost hears = { λ before told after. Hears before told after };

    ghost takes = { λ before c answer after. Takes before c answer after };

    fn site(&self) -> u16 {
        self.nested.site
    }

    fn register(&mut self, _hold: (), child: u16) -> TeamHeard {
        heard(Call::Registered, child, 0)
    }

    fn unregister(&mut self, _hold: (), child: u16) -> TeamHeard {
        self.agenda.remove_wishes(child);
        heard(Call::Unregistered, child, 0)
    }

    fn request(&mut self, _hold: (), child: u16, count: u8) -> TeamHeard {
        self.agenda.add_wishes(child, count);
        heard(Call::Requested, child, count)
    }

    fn yielded(&mut self, _hold: (), child: u16) -> TeamHeard {
        heard(Call::Yielded, child, 0)
    }

    fn enter(&mut self, _hold: ()) -> Next<TeamWork<'p>> {
        self.agenda.take_next()
    }

    fn block(&mut self, _hold: ()) -> TeamHeard {
        heard(Call::Blocked, 0, 0)
    }

    fn unblock(&mut self, _hold: (), c: TeamWork<'p>) -> Result<(), TeamWork<'p>> {
        self.agenda.put_ready(c)
    }
}

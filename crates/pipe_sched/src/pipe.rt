//! Pipes.
ghost use Rattle.std.specs.Prelude.{◌≡◌, ◌↔◌, IsTrue, IfOk, IsErr, Some};
ghost use Rattle.sched_api.specs.Wishes.{with_wishes};
ghost use Rattle.array_tree.specs.Trees.{statement_of};
ghost use Rattle.step_eval.specs.declared.shape.Kind.TheVariants as kind;
ghost use Rattle.step_eval.specs.Nests.{nested_of, nested_writes, IsFitNest};
ghost use Rattle.step_eval.specs.Shapes.{kind_of};
ghost use Rattle.pipe_sched.specs.Slots.{MayFail, IsFull, HasFailed, FailsFrom, failed_pipe};
ghost use Rattle.pipe_sched.specs.Pipes.{Deposits, IsUncrossed};
ghost use Rattle.pipe_sched.specs.Schedulers.{new_scheduler, roomy_scheduler, with_state, Answers, Hears, Takes};

use crate::state::PipeState;
use array_eval::Overlay;
use array_jobs::Piece;
use join_book::Deposit;
use sched_api::{Agenda, Call, Heard, MOST_WISHES, Next, Scheduler};
use std::alloc::{AllocError, Global};
use std::collections::VecDeque;
use std::marker::Model;
use step_eval::{Nested, Work};

/// What makes the receipts of a pipe. Only this crate can make it.
#[derive(Drop)]
pub struct PipeSeal(());

/// The receipt of a callback of a pipe.
pub type PipeHeard = Heard<PipeSeal>;

// Only callbacks call this function.
pub(crate) fn heard(call: Call, child: u16, count: u8) -> PipeHeard
    ensures { result ≡ record { call = call; child = child; count = count } }
{
    Heard::new(PipeSeal(()), call, child, count)
}

/// What a hart takes from a pipe.
pub type PipeWork<'p> = Work<'p>;

/// The scheduler of one `team` whose members overtake one another. It has the state of its pieces, the contexts that are ready
/// to go on, and the wishes of its children.
///
/// Of the calls of `Scheduler`, `enter` allocates the store from which a piece starts. If that fails, the piece that is due
/// fails, and the next one is tried.
#[derive(Drop)]
pub struct Pipe<'p> {
    state: PipeState<'p>,
    // Its list of contexts that aren't begun stays empty: the state hands out pieces.
    agenda: Agenda<PipeWork<'p>>,
}

impl<'p> Model for Pipe<'p> {
    ghost use Rattle.std.specs.Prelude.{◌≡◌, []};
    ghost use Rattle.std.specs.Coded.{codes};
    ghost use Rattle.array_tree.specs.contracts.tree.Arrays as arrays_type;
    ghost use Rattle.array_tree.specs.contracts.tree.Block as block_type;
    ghost use Rattle.array_tree.specs.contracts.tree.Stmt as stmt_type;
    ghost use Rattle.step_eval.specs.contracts.stage.Stage as stage_type;
    ghost use Rattle.step_eval.specs.Inside.Codes.{coded_sequence};
    ghost use Rattle.pipe_sched.specs.Schedulers.{SchedulerParts};

    ghost Value = { SchedulerParts };

    ghost coded = { Prim.hlevel (codes, arrays_type.the_row.coded, block_type.the_row.coded, stmt_type.the_row.coded, stage_type.the_row.coded, coded_sequence) };

    ghost view = { λ pipe. record { state = pipe.state; agenda = pipe.agenda } };

    ghost invariant = { λ pipe. pipe.agenda.unbegun ≡ [] };
}

impl<'p> Pipe<'p> {
    /// A pipe of which no piece was handed out. The construct must be a `team`.
    ///
    /// # Errors
    ///
    /// `AllocError` if an allocation fails.
    ///
    /// # Memory
    ///
    /// It allocates the room for wishes, and for one ready context of each piece. Of the other calls only `enter` and
    /// `take_all` allocate.
    pub fn new(alloc: Global, nested: Nested<'p>) -> Result<Pipe<'p>, AllocError>
        requires { kind_of (statement_of nested.construct) ≡ Some kind.Team }
        ensures { IfOk result (λ pipe. pipe ≡ new_scheduler nested.entry) }
    {
        Pipe::with_wishes(alloc, nested, MOST_WISHES)
    }

    /// The pipe that `new` makes, with room for `wishes` wishes. A wish beyond the room is dropped.
    ///
    /// # Errors
    ///
    /// `AllocError` if an allocation fails.
    ///
    /// # Memory
    ///
    /// It allocates as `new` does.
    pub fn with_wishes(
        alloc: Global,
        nested: Nested<'p>,
        wishes: usize,
    ) -> Result<Pipe<'p>, AllocError>
        requires { kind_of (statement_of nested.construct) ≡ Some kind.Team }
        ensures { IfOk result (λ pipe. pipe ≡ roomy_scheduler nested.entry wishes) }
    {
        // Why: reading a field makes the construct's invariant known.
        let _site = nested.site;
        let room = usize::from(nested.members()) * usize::from(nested.phases());
        let unbegun = VecDeque::new(alloc);
        let agenda = Agenda::new(alloc, room, wishes, unbegun)?;
        let state = PipeState::new(alloc, nested)?;
        Ok(Pipe { state, agenda })
    }

    /// The construct, with the variables and the store before it.
    pub fn nested(&self) -> &Nested<'p>
        ensures same { result.now ≡ self.now.state.nested }
        ensures fit { IsFitNest (nested_of self.now.state.nested) }
    {
        self.state.nested()
    }

    /// Puts a piece into the slot of its job.
    pub fn deposit(&mut self, piece: Piece<'p>) -> Deposit<'p>
        ensures state { Deposits self.old.state piece.entry result self.new.state }
        ensures rest { self.new ≡ with_state self.old self.new.state }
    {
        self.state.deposit(piece)
    }

    /// Reports that a piece failed. It must be handed out and neither filled nor failed, or it must be due. Each piece that
    /// comes after it fails too, and no other.
    pub fn fail(&mut self, member: u8, phase: u8)
        requires { MayFail self.old.state member phase }
        ensures same { self.new ≡ with_state self.old (failed_pipe self.old.state member phase) }
        ensures failed { FailsFrom self.new.state member phase }
    {
        self.state.fail(member, phase);
    }

    // Whether the piece is handed out and neither filled nor failed, or is due.
    pub(crate) fn may_fail(&self, member: u8, phase: u8) -> bool
        ensures { IsTrue result ↔ MayFail self.now.state member phase }
    {
        self.state.may_fail(member, phase)
    }

    // The number of pieces that become due when the piece of this member in this phase is filled: only the member's next piece
    // and the next member's in this phase can.
    pub(crate) fn count_due_after(&self, member: u8, phase: u8) -> u8 {
        self.state.count_due_after(member, phase)
    }

    /// Whether every piece is filled or failed.
    pub fn is_full(&self) -> bool
        ensures { IsTrue result ↔ IsFull self.now.state }
    {
        self.state.is_full()
    }

    /// Whether some piece is failed.
    pub fn has_failed(&self) -> bool
        ensures { IsTrue result ↔ HasFailed self.now.state }
    {
        self.state.has_failed()
    }

    /// What the whole construct writes if no two of its pieces cross: each cell with its last value. The pieces may have come
    /// in any order. Every piece must be filled or failed.
    ///
    /// # Errors
    ///
    /// `AllocError` if a piece has failed, or an allocation fails.
    ///
    /// # Memory
    ///
    /// It allocates a store and the overlay.
    pub fn take_all(self) -> Result<Overlay, AllocError>
        requires { IsFull self.state }
        ensures failed { HasFailed self.entry.state → IsErr result }
        ensures written { IfOk result
            (λ overlay. IsUncrossed (nested_of self.entry.state.nested)
            → overlay.pairs ≡ nested_writes (nested_of self.entry.state.nested)) }
    {
        let Pipe { state, .. } = self;
        state.take_all()
    }
}

impl<'p> Scheduler for Pipe<'p> {
    type Hold = ();

    type Heard = PipeHeard;

    type Ctx = PipeWork<'p>;

    ghost site_of = { λ pipe. pipe.state.nested.site };

    ghost answers = { λ before next after. Answers before next after };

    ghost hears = { λ before told after. Hears before told after };

    ghost takes = { λ before c answer after. Takes before c answer after };

    fn site(&self) -> u16 {
        self.state.nested().site
    }

    fn register(&mut self, _hold: (), child: u16) -> PipeHeard {
        heard(Call::Registered, child, 0)
    }

    fn unregister(&mut self, _hold: (), child: u16) -> PipeHeard {
        self.agenda.remove_wishes(child);
        heard(Call::Unregistered, child, 0)
    }

    fn request(&mut self, _hold: (), child: u16, count: u8) -> PipeHeard {
        self.agenda.add_wishes(child, count);
        heard(Call::Requested, child, count)
    }

    fn yielded(&mut self, _hold: (), child: u16) -> PipeHeard {
        heard(Call::Yielded, child, 0)
    }

    fn enter(&mut self, _hold: ()) -> Next<PipeWork<'p>> {
        if let Some(work) = self.agenda.take_ready() {
            return Next::Run(work);
        }
        match self.state.next_or_fail() {
            Some(job) => Next::Run(PipeWork::Begin(job)),
            None => self.agenda.take_next(),
        }
    }

    fn block(&mut self, _hold: ()) -> PipeHeard {
        heard(Call::Blocked, 0, 0)
    }

    fn unblock(&mut self, _hold: (), c: PipeWork<'p>) -> Result<(), PipeWork<'p>> {
        self.agenda.put_ready(c)
    }
}

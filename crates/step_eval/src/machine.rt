//! Machines that run a job a step at a time.
ghost use Rattle.std.specs.Prelude.{◌≡◌, ◌≢◌, ◌+◌, ◌≤◌, ◌<◌, false, IfOk, IfErr, OnOk, OnErr};
ghost use Rattle.contexts.specs.Machine.{Steps};
ghost use Rattle.contexts.specs.declared.machine.Step.TheVariants.{More};
ghost use Rattle.array_tree.specs.Trees.{statement_of};
ghost use Rattle.array_jobs.specs.Jobs.{job_of};
ghost use Rattle.step_eval.specs.declared.stage.Stage.TheVariants.{Awaiting, Failed};
ghost use Rattle.step_eval.specs.Machines.{IsRight, fresh_machine, is_awaiting, to_do, left_of, Advances, HasMoved, HasGone, HasGoneOn, AreAwaited, IsFinished};
ghost use Rattle.step_eval.specs.Inside.Frames.{works_of, IsStacked, IsMore, Ran};
ghost use Rattle.step_eval.specs.Inside.Parts.{while_going, Advanced, IsLayoutOf, IsHandedOut, IsConstructNext, stage_by, sites_seen, step_by};

use crate::found::Found;
use crate::frames::Frames;
use crate::nested::Nested;
use crate::reported::Reported;
use crate::stage::Stage;
use array_eval::{Layout, MarkedStore, Overlay};
use array_jobs::{Job, Piece};
use array_tree::Stmt;
use contexts::{Machine, Step};
use site_counts::sites_in_statement;
use std::alloc::{AllocError, Global};
use std::marker::Model;

/// A job that runs a step at a time. It can be paused after any step and passed on.
///
/// Contracts see a machine as its job, the remaining works, the current store with marks for the written cells, the number of
/// the next site, and its stage. The type's invariant: the writes so far, followed by the remaining ones, are what the job
/// writes.
#[derive(Debug, Drop)]
pub struct StepMachine<'p> {
    alloc: Global,
    job: Job<'p>,
    layout: Layout<'p>,
    frames: Frames<'p>,
    store: MarkedStore,
    // Room for all that the job may write, a pair for each cell. Why: `into_piece` then doesn't allocate.
    room: Overlay,
    // The next site's number. Why one for the machine, and not one for each work: a loop that begins would have to count the
    // sites of its body. At the end of an `if` it grows by the sites of the other side, which a `Pass` has reported.
    next: u16,
    stage: Stage,
}

impl<'p> Model for StepMachine<'p> {
    ghost use Rattle.std.specs.Coded.{codes};
    ghost use Rattle.array_tree.specs.contracts.tree.Arrays as arrays_type;
    ghost use Rattle.array_tree.specs.contracts.tree.Block as block_type;
    ghost use Rattle.step_eval.specs.contracts.stage.Stage as stage_type;
    ghost use Rattle.step_eval.specs.Inside.Codes.{coded_sequence};
    ghost use Rattle.step_eval.specs.Machines.{Progress};
    ghost use Rattle.step_eval.specs.Inside.Frames.{works_of};
    ghost use Rattle.step_eval.specs.Inside.Parts.{IsSound, IsLayoutOf};

    ghost Value = { Progress };

    ghost coded = { Prim.hlevel (codes, arrays_type.the_row.coded, block_type.the_row.coded, stage_type.the_row.coded, coded_sequence) };

    ghost view = { λ machine. record { job = machine.job; rest = works_of machine.frames machine.job.vars; store = machine.store; next = machine.next; stage = machine.stage } };

    ghost invariant = { λ machine.
        IsSound machine.stage machine.job machine.frames machine.store machine.room machine.next
        × IsLayoutOf machine.layout machine.job };
}

impl<'p> StepMachine<'p> {
    /// A machine with all of a job remaining.
    ///
    /// # Errors
    ///
    /// `AllocError` if an allocation fails.
    ///
    /// # Memory
    ///
    /// It allocates a layout, a marked store, room for a pair for each cell, and the frames.
    pub fn new(alloc: Global, job: Job<'p>) -> Result<StepMachine<'p>, AllocError>
        ensures { IfOk result (λ machine. machine ≡ fresh_machine job.entry) }
    {
        let layout = Layout::new(alloc, job.arrays)?;
        let frames = Frames::new(alloc, job.work)?;
        let store = MarkedStore::new(alloc, &job.store)?;
        let room = Overlay::roomy(alloc, store.count() as u16)?;
        let next = job.first;
        Ok(StepMachine {
            alloc,
            job,
            layout,
            frames,
            store,
            room,
            next,
            stage: Stage::Going,
        })
    }

    /// Gives the machine the writes of the construct that it awaits. The machine then goes on after the construct.
    ///
    /// The last step must have handed the construct out, and these must be its writes, each cell with its last value.
    ///
    /// # Errors
    ///
    /// `AllocError`, as the contract allows; the machine is then failed.
    ///
    /// # Memory
    ///
    /// This implementation does not allocate.
    pub fn supply(&mut self, written: &Overlay) -> Result<(), AllocError>
        requires awaits { self.old.stage ≡ Awaiting }
        requires written { AreAwaited self.old written.now.pairs }
        ensures ok { OnOk result (HasMoved self.old.rest self.old self.new) }
        ensures left { OnOk result
            (left_of self.new.stage self.new.rest ≡ left_of self.old.stage self.old.rest) }
        ensures err { OnErr result (self.new.stage ≡ Failed) }
    {
        let sites = sites_in_construct(self.frames.construct());
        self.frames.pass();
        self.next += sites as u16;
        self.store.merge(written);
        self.stage = Stage::Going;
        Ok(())
    }

    /// Goes on to the next construct or to the end, step by step, except that it runs each loop without sites to its end at
    /// once. It also stops when it has begun an `if` whose other side has sites. It never returns More.
    ///
    /// Why statements outside loops go by steps: each runs once a piece or a turn.
    pub fn go(&mut self) -> Step<Found<'p>>
        requires { is_awaiting self.old.stage ≡ false }
        ensures gone { HasGone self.old result self.new }
        ensures whole { result ≢ More }
    {
        loop {
            match self.go_on() {
                Step::More => {}
                step => return step,
            }
        }
    }

    // Runs the next loop if it comes to no site, and otherwise does one step.
    fn go_on(&mut self) -> Step<Found<'p>>
        requires { is_awaiting self.old.stage ≡ false }
        ensures { HasGone self.old result self.new }
    {
        if self.run_through() {
            Step::More
        } else {
            self.step()
        }
    }

    // Runs the next loop to its end, if it comes to no site; otherwise returns false.
    fn run_through(&mut self) -> bool
        ensures { HasGoneOn result self.old self.new }
    {
        match self.stage {
            Stage::Going => {
                run_loop_of(&self.job, &self.layout, &mut self.frames, &mut self.store)
            }
            _ => false,
        }
    }

    /// The job with its writes. The last step must have been Finished. Does not allocate.
    pub fn into_piece(self) -> Piece<'p>
        requires { IsFinished self }
        ensures { result.job ≡ self.entry.job }
    {
        let StepMachine {
            job,
            store,
            room,
            ..
        } = self;
        let mut written = room;
        store.lay_written(&mut written);
        written.shrink_to_fit();
        Piece::new(job, written)
    }
}

impl<'p> Machine for StepMachine<'p> {
    type Nested = Found<'p>;

    ghost work = { to_do };

    ghost steps = { Advances };

    /// Begins or ends one statement or one turn of a loop, or hands out the next construct. If it begins an `if` whose other
    /// side has sites, it reports these.
    fn step(&mut self) -> Step<Found<'p>>
        requires { is_awaiting self.old.stage ≡ false }
        ensures exact { Advances self.old result self.new }
        ensures work { Steps (to_do self.old) result (to_do self.new) }
    {
        match self.stage {
            Stage::Going => match advance(
                self.alloc,
                &self.layout,
                &self.job,
                &mut self.frames,
                &mut self.store,
                &mut self.next,
            ) {
                Ok(step) => {
                    self.stage = stage_after(&step);
                    step
                }
                Err(AllocError) => {
                    self.stage = Stage::Failed;
                    Step::NoMemory
                }
            },
            Stage::Failed => Step::NoMemory,
            // Why: the contract excludes a step while the machine awaits a construct's writes.
            Stage::Awaiting => Step::NoMemory,
        }
    }
}

// The stage of a machine after a step in which no allocation failed.
fn stage_after(step: &Step<Found>) -> Stage
    ensures { result ≡ stage_by step.now }
{
    match step {
        Step::Nest(Found::Nest(_)) => Stage::Awaiting,
        _ => Stage::Going,
    }
}

// The number of a construct's sites.
fn sites_in_construct(construct: Option<&Stmt>) -> u64
    ensures { result ≡ sites_seen construct.entry }
{
    match construct {
        Some(construct) => sites_in_statement(construct),
        None => 0,
    }
}

// Does one step of a machine that goes on. Why it and the parts of a step are inlined: a loop of steps takes 1.4 to 3.5 times
// as long if each is a call, since the result has room for a construct.
#[inline(always)]
fn advance<'p>(
    alloc: Global,
    layout: &Layout,
    job: &Job<'p>,
    frames: &mut Frames<'p>,
    store: &mut MarkedStore,
    next: &mut u16,
) -> Result<Step<Found<'p>>, AllocError>
    requires layout { IsLayoutOf layout.now job.now }
    requires right { IsRight (job_of job.now) (works_of frames.old job.now.vars) store.old
        next.old }
    requires stacked { IsStacked frames.old }
    ensures advanced { IfOk result
        (λ step. Advanced (while_going job.now (works_of frames.old job.now.vars) store.old
        next.old) step (works_of frames.new job.now.vars) store.new next.new) }
    ensures stacked { IfOk result (λ _. IsStacked frames.new) }
    ensures more { IfErr result (λ _. IsMore (works_of frames.old job.now.vars)) }
{
    match frames.construct() {
        Some(construct) => {
            let nested = hand_out(alloc, job, frames, store, *next, construct)?;
            Ok(Step::Nest(Found::Nest(nested)))
        }
        None => {
            let reported = frames.go_on(layout, &job.vars, store, next)?;
            Ok(step_by(reported))
        }
    }
}

// The result of a step that hands out no construct.
fn step_by<'p>(reported: Option<Reported>) -> Step<Found<'p>>
    ensures { result ≡ step_by reported }
{
    match reported {
        None => Step::Finished,
        Some(Reported::Nothing) => Step::More,
        Some(Reported::Skips { first, end }) => Step::Nest(Found::Pass { first, end }),
    }
}

// Runs the next loop to its end, if it comes to no site; otherwise returns false.
#[inline(always)]
fn run_loop_of(job: &Job, layout: &Layout, frames: &mut Frames, store: &mut MarkedStore) -> bool
    requires { IsStacked frames.old }
    ensures ran { Ran layout.now result (works_of frames.old job.now.vars) store.old
        (works_of frames.new job.now.vars) store.new }
    ensures stacked { IsStacked frames.new }
{
    frames.run_through(layout, &job.vars, store)
}

// Hands out the next construct, with the variables and the store from which its pieces start.
#[inline(never)]
fn hand_out<'p>(
    alloc: Global,
    job: &Job<'p>,
    frames: &Frames<'p>,
    store: &mut MarkedStore,
    next: u16,
    construct: &'p Stmt,
) -> Result<Nested<'p>, AllocError>
    requires right { IsRight (job_of job.now) (works_of frames.now job.now.vars) store.old next }
    requires construct { IsConstructNext (statement_of construct.now)
        (works_of frames.now job.now.vars) }
    ensures handed_out { IfOk result (IsHandedOut
        (while_going job.now (works_of frames.now job.now.vars) store.old next)) }
    ensures same { store.new ≡ store.old }
{
    Ok(Nested {
        arrays: job.arrays,
        site: next,
        construct,
        vars: frames.vars_around(alloc, &job.vars)?,
        store: store.to_store(alloc)?,
    })
}

//! Handing out the piece that is due.
ghost use Rattle.std.specs.Prelude.{◌≡◌, ◌↔◌, ◌+◌, ◌*◌, ◌<◌, ◌≤◌, ℕ, IsTrue, IfOk, OnErr, IfSome, IfNone, map, length};
ghost use Rattle.array_meaning.specs.Stores.{after};
ghost use Rattle.array_jobs.specs.Jobs.{job_of};
ghost use Rattle.step_eval.specs.Nests.{nested_of};
ghost use Rattle.pipe_sched.specs.Slots.{Out, Filled, IsDue, NoneIsDue, IsMarked, IsReady, marked_pipe, phases_in};
ghost use Rattle.pipe_sched.specs.Pipes.{Gives, GivesAfterFailing, HandsOut, IsJobAt, piped_writes, piped_store};
ghost use Rattle.pipe_sched.specs.Inside.{mark_of, AreNext, LooksReady, written_with};

use crate::merging::{first_store, merge_phase};
use crate::slot::Slot;
use crate::state::PipeState;
use array_eval::{MarkedStore, Store};
use array_jobs::Job;
use std::alloc::AllocError;
use step_eval::job_at;

impl<'p> PipeState<'p> {
    /// Hands out the piece that is due: of the waiting pieces whose predecessors are all filled, the one of the lowest member,
    /// and of its phases the first. `None` exactly if no piece is due. The job starts from the construct's store with the
    /// writes of the pieces that come before it.
    ///
    /// # Errors
    ///
    /// `AllocError` if an allocation fails.
    ///
    /// # Memory
    ///
    /// It allocates a store.
    pub fn next(&mut self) -> Result<Option<Job<'p>>, AllocError>
        ensures { Gives self.old result self.new }
    {
        match self.due() {
            None => Ok(None),
            Some((member, phase)) => Ok(Some(self.give(member, phase)?)),
        }
    }

    // The same as `next`, but a piece that is due fails if an allocation fails, and then the next one is tried.
    pub(crate) fn next_or_fail(&mut self) -> Option<Job<'p>>
        ensures { GivesAfterFailing self.old result self.new }
    {
        'pieces: while let Some((member, phase)) = self.due() {
            match self.give(member, phase) {
                Ok(job) => return Some(job),
                Err(AllocError) => self.fail(member, phase),
            }
        }
        None
    }

    // Hands out the piece that is due. It allocates before it changes the state.
    fn give(&mut self, member: u8, phase: u8) -> Result<Job<'p>, AllocError>
        requires { IsDue self.old member phase }
        ensures given { IfOk result (λ job. HandsOut self.old job self.new) }
        ensures same { OnErr result (self.new ≡ self.old) }
    {
        let job = self.due_job(member, phase)?;
        let own = job.copy()?;
        self.hand_out(member, phase, own);
        Ok(job)
    }

    // The member and the phase of the piece that is due, if there is one.
    pub(crate) fn due(&self) -> Option<(u8, u8)>
        ensures some { IfSome result (λ piece. IsDue self.now piece.0 piece.1) }
        ensures none { IfNone result (NoneIsDue self.now) }
    {
        let phases = usize::from(self.nested.phases());
        match first_ready(&self.slots, phases, &self.next) {
            Some(place) => Some(((place / phases) as u8, (place % phases) as u8)),
            None => None,
        }
    }

    // The number of pieces that become due when the piece of this member in this phase is filled: only the member's next piece
    // and the next member's in this phase can.
    pub(crate) fn count_due_after(&self, member: u8, phase: u8) -> u8 {
        let own = self.looks_ready(member, phase.saturating_add(1));
        let above = self.looks_ready(member.saturating_add(1), phase);
        u8::from(own).saturating_add(u8::from(above))
    }

    // Whether the piece of a member in a phase exists and looks ready.
    fn looks_ready(&self, member: u8, phase: u8) -> bool {
        let phases = usize::from(self.nested.phases());
        let place = usize::from(member) * phases + usize::from(phase);
        usize::from(phase) < phases
            && place < self.slots.len()
            && looks_ready(&self.slots, phases, place)
    }

    // The job of a piece whose predecessors are all filled.
    fn due_job(&self, member: u8, phase: u8) -> Result<Job<'p>, AllocError>
        requires { IsReady (phases_in self.now.nested) self.now.marks member phase }
        ensures own { IfOk result (λ job. IsJobAt (nested_of self.now.nested) member phase (job_of job)) }
        ensures place { IfOk result (λ job. job.place ≡ member) }
        ensures phase { IfOk result (λ job. job.phase ≡ phase) }
    {
        let store = self.store_before(member, phase)?;
        job_at(self.alloc, &self.nested, phase, member, &store)
    }

    // The store that the pieces before this one leave: the store that the same member's piece leaves in the phase before, with
    // the writes of the lower members in this phase.
    fn store_before(&self, member: u8, phase: u8) -> Result<Store, AllocError>
        requires { IsReady (phases_in self.now.nested) self.now.marks member phase }
        ensures { IfOk result (λ store. store ≡ piped_store (nested_of self.now.nested) member phase) }
    {
        if phase == 0 {
            return self.store_in_first(member);
        }
        self.store_in_later(member, phase)
    }

    // The same in the first phase.
    fn store_in_first(&self, member: u8) -> Result<Store, AllocError>
        requires { IsReady (phases_in self.now.nested) self.now.marks member 0 }
        ensures { IfOk result (λ store. store ≡ piped_store (nested_of self.now.nested) member 0) }
    {
        if member == 0 {
            return first_store(&self.nested);
        }
        let mut store = self.store_after(member - 1, 0)?;
        store.to_store(self.alloc)
    }

    // The same in a phase that isn't the first.
    fn store_in_later(&self, member: u8, phase: u8) -> Result<Store, AllocError>
        requires ready { IsReady (phases_in self.now.nested) self.now.marks member phase }
        requires later { 0 < phase }
        ensures { IfOk result (λ store. store ≡ piped_store (nested_of self.now.nested) member phase) }
    {
        let phases = usize::from(self.nested.phases());
        let below = usize::from(member);
        let own = usize::from(phase);
        let mut store = self.store_after(member, phase - 1)?;
        merge_phase(&self.slots, phases, below, own, &mut store);
        store.to_store(self.alloc)
    }

    // The store that a filled piece leaves: the store from which its job started, with its writes.
    fn store_after(&self, member: u8, phase: u8) -> Result<MarkedStore, AllocError>
        requires { IsMarked self.now member phase Filled }
        ensures { IfOk result (λ store. store.cells
            ≡ after (written_with (piped_writes (nested_of self.now.nested)) member phase) self.now.nested.store) }
    {
        let phases = usize::from(self.nested.phases());
        let place = usize::from(member) * phases + usize::from(phase);
        self.slots[place].store_left(self.alloc)
    }

    // Records that a piece was handed out with this job.
    fn hand_out(&mut self, member: u8, phase: u8, job: Job<'p>)
        requires ready { IsReady (phases_in self.old.nested) self.old.marks member phase }
        requires own { IsJobAt (nested_of self.old.nested) member phase (job_of job) }
        ensures marked { self.new ≡ marked_pipe self.old member phase Out }
        ensures out { IsMarked self.new member phase Out }
    {
        let phases = usize::from(self.nested.phases());
        self.slots[usize::from(member) * phases + usize::from(phase)] = Slot::Out(job);
        self.next[usize::from(member)] = phase + 1;
    }
}

// The first index that looks ready, if there is one. Of each member, only the first piece that wasn't handed out can be ready.
fn first_ready(slots: &[Slot], phases: usize, next: &[u8]) -> Option<usize>
    requires phases { 0 < phases }
    requires places { length slots.now ≡ length next.now * phases }
    requires next { AreNext phases (map mark_of slots.now) next.now }
    ensures there { IfSome result (λ place. (place < length slots.now) × LooksReady phases slots.now place) }
    ensures first { IfSome result (λ place. (i : ℕ) → i < place → ¬ LooksReady phases slots.now i) }
    ensures none { IfNone result ((i : ℕ) → i < length slots.now → ¬ LooksReady phases slots.now i) }
{
    for member in 0..next.len() {
        let phase = usize::from(next[member]);
        if let Some(place) = ready_place(slots, phases, member, phase) {
            return Some(place);
        }
    }
    None
}

// The index of a member in a phase, if the phase exists and the piece looks ready.
fn ready_place(slots: &[Slot], phases: usize, member: usize, phase: usize) -> Option<usize>
    requires phases { 0 < phases }
    requires row { member * phases + phases ≤ length slots.now }
    ensures there { IfSome result
        (λ place. (place ≡ member * phases + phase) × (phase < phases) × LooksReady phases slots.now place) }
    ensures none { IfNone result (phase < phases → ¬ LooksReady phases slots.now (member * phases + phase)) }
{
    if phase >= phases {
        return None;
    }
    let place = member * phases + phase;
    if !looks_ready(slots, phases, place) {
        return None;
    }
    Some(place)
}

// Whether the piece at an index waits, and the two right before it are filled. Why two neighbours decide: all pieces before a
// filled one are filled.
fn looks_ready(slots: &[Slot], phases: usize, place: usize) -> bool
    requires phases { 0 < phases }
    requires there { place < length slots.now }
    ensures { IsTrue result ↔ LooksReady phases slots.now place }
{
    slots[place].is_waiting()
        && (place % phases == 0 || slots[place - 1].is_filled())
        && (place < phases || slots[place - phases].is_filled())
}

//! Pieces that come back, and pieces that fail because an allocation failed.
ghost use Rattle.std.specs.Prelude.{◌≡◌, ◌↔◌, ◌<◌, IsTrue};
ghost use Rattle.pipe_sched.specs.Slots.{Out, Filled, IsMarked, IsDue, MayFail, marked_pipe, failed_pipe, changed_where, follows, FailsFrom};
ghost use Rattle.pipe_sched.specs.Pipes.{Deposits, WasHandedOut};
ghost use Rattle.pipe_sched.specs.Inside.{failed_slot};

use crate::slot::Slot;
use crate::state::PipeState;
use array_jobs::{Job, Piece};
use join_book::Deposit;

impl<'p> PipeState<'p> {
    /// Puts a piece into the slot of its job.
    pub fn deposit(&mut self, piece: Piece<'p>) -> Deposit<'p>
        ensures { Deposits self.old piece.entry result self.new }
    {
        if !self.was_handed_out(&piece.job) {
            return Deposit::Stranger(piece);
        }
        if !self.is_out(&piece.job) {
            return Deposit::Double(piece);
        }
        self.keep(piece);
        Deposit::Kept
    }

    /// Reports that a piece failed. It must be handed out and neither filled nor failed, or it must be due. Each piece that
    /// comes after it fails too, and no other.
    pub fn fail(&mut self, member: u8, phase: u8)
        requires { MayFail self.old member phase }
        ensures same { self.new ≡ failed_pipe self.old member phase }
        ensures failed { FailsFrom self.new member phase }
    {
        let phases = usize::from(self.nested.phases());
        fail_from(
            &mut self.slots,
            phases,
            usize::from(member),
            usize::from(phase),
        );
    }

    // Whether the piece is out, or is due.
    pub(crate) fn may_fail(&self, member: u8, phase: u8) -> bool
        ensures { IsTrue result ↔ MayFail self.now member phase }
    {
        self.is_out_at(member, phase) || self.is_due(member, phase)
    }

    // Whether the piece was handed out with an equal job.
    fn was_handed_out(&self, job: &Job) -> bool
        ensures { IsTrue result ↔ WasHandedOut self.now job.now }
    {
        match self.slot_at(job.place, job.phase) {
            Some(slot) => slot.has_job(job),
            None => false,
        }
    }

    // Whether the piece of the member and the phase that a job names is out.
    fn is_out(&self, job: &Job) -> bool
        ensures { IsTrue result ↔ IsMarked self.now job.now.place job.now.phase Out }
    {
        self.is_out_at(job.place, job.phase)
    }

    // Whether the piece of a member in a phase is out.
    fn is_out_at(&self, member: u8, phase: u8) -> bool
        ensures { IsTrue result ↔ IsMarked self.now member phase Out }
    {
        match self.slot_at(member, phase) {
            Some(slot) => slot.is_out(),
            None => false,
        }
    }

    // Whether the piece of a member in a phase is due.
    fn is_due(&self, member: u8, phase: u8) -> bool
        ensures { IsTrue result ↔ IsDue self.now member phase }
    {
        match self.due() {
            Some(piece) => piece.0 == member && piece.1 == phase,
            None => false,
        }
    }

    // Keeps a piece that is handed out.
    fn keep(&mut self, piece: Piece<'p>)
        requires own { WasHandedOut self.old piece.job }
        requires out { IsMarked self.old piece.job.place piece.job.phase Out }
        ensures { self.new ≡ marked_pipe self.old piece.entry.job.place piece.entry.job.phase Filled }
    {
        let phases = usize::from(self.nested.phases());
        let Piece { job, written } = piece;
        let place = usize::from(job.place) * phases + usize::from(job.phase);
        self.slots[place] = Slot::Filled(job, written);
    }
}

// The pieces of this member and the higher ones fail, in this phase and the later ones.
fn fail_from(slots: &mut [Slot], phases: usize, member: usize, phase: usize)
    requires { 0 < phases }
    ensures { slots.new ≡ changed_where (follows phases member phase) failed_slot 0 slots.old }
{
    for place in 0..slots.len() {
        if member <= place / phases && phase <= place % phases {
            slots[place].fail();
        }
    }
}

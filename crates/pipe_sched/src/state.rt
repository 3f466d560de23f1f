//! Pipelines of one owner. The state knows no table, no port and no scheduler.
ghost use Rattle.std.specs.Prelude.{◌≡◌, ◌↔◌, IsTrue, IfOk, IfSome, IfNone, Some, replicate};
ghost use Rattle.array_tree.specs.Trees.{statement_of};
ghost use Rattle.step_eval.specs.declared.shape.Kind.TheVariants as kind;
ghost use Rattle.step_eval.specs.Shapes.{kind_of};
ghost use Rattle.pipe_sched.specs.declared.slot.Slot.TheVariants as slot;
ghost use Rattle.step_eval.specs.Nests.{nested_of, IsFitNest};
ghost use Rattle.pipe_sched.specs.Slots.{Mark, IsFull, HasFailed, IsMarked, new_pipe};
ghost use Rattle.pipe_sched.specs.Inside.{mark_of, IsRight, AreSettled, HaveFailed};

use crate::slot::Slot;
use std::alloc::{AllocError, Global};
use std::marker::Model;
use step_eval::Nested;

/// The state of the pipeline of one `team`: for each member in each phase a slot for its piece.
///
/// A piece comes after those of the members up to its own in the phases up to its own. Contracts see the construct and the
/// state of each piece. The type's invariant: a piece was handed out only after all pieces that come before it were filled, and
/// its job starts from their writes. A slot is filled with the writes of its own job.
#[derive(Debug, Drop)]
pub struct PipeState<'p> {
    pub(crate) alloc: Global,
    pub(crate) nested: Nested<'p>,
    // Slots member by member, and then by phase. So the first due slot is that of the lowest member.
    pub(crate) slots: Vec<Slot<'p>>,
    // For each member the first phase whose piece was not handed out.
    pub(crate) next: Vec<u8>,
}

impl<'p> Model for PipeState<'p> {
    ghost use Rattle.std.specs.Coded.{codes};
    ghost use Rattle.std.specs.Prelude.{map};
    ghost use Rattle.array_tree.specs.contracts.tree.Arrays as arrays_type;
    ghost use Rattle.array_tree.specs.contracts.tree.Stmt as stmt_type;
    ghost use Rattle.array_tree.specs.contracts.tree.Block as block_type;
    ghost use Rattle.pipe_sched.specs.Slots.{PipeParts};
    ghost use Rattle.pipe_sched.specs.Inside.{mark_of, IsHeld};

    ghost Value = { PipeParts };

    ghost coded = { Prim.hlevel (codes, arrays_type.the_row.coded, block_type.the_row.coded, stmt_type.the_row.coded) };

    ghost view = { λ pipe. record { nested = pipe.nested; marks = map mark_of pipe.slots.items } };

    ghost invariant = { λ pipe. IsHeld pipe.nested pipe.slots.items pipe.next.items };
}

impl<'p> PipeState<'p> {
    /// A pipeline of which no piece was handed out. The construct must be a `team`.
    ///
    /// # Errors
    ///
    /// `AllocError` if an allocation fails.
    ///
    /// # Memory
    ///
    /// It allocates a slot for each piece and a number for each member. Of the calls below only `next` and `take_all` allocate.
    pub fn new(alloc: Global, nested: Nested<'p>) -> Result<PipeState<'p>, AllocError>
        requires { kind_of (statement_of nested.construct) ≡ Some kind.Team }
        ensures { IfOk result (λ pipe. pipe ≡ new_pipe nested.entry) }
    {
        // Reading a field makes the invariant of a construct known.
        let _site = nested.site;
        let count = usize::from(nested.members()) * usize::from(nested.phases());
        let slots = waiting_slots(alloc, count)?;
        let next = vec![in alloc; 0; usize::from(nested.members())]?;
        Ok(PipeState {
            alloc,
            nested,
            slots,
            next,
        })
    }

    /// Whether every piece is filled or failed.
    pub fn is_full(&self) -> bool
        ensures { IsTrue result ↔ IsFull self.now }
    {
        are_settled(&self.slots)
    }

    // The construct, with the variables and the store before it.
    pub(crate) fn nested(&self) -> &Nested<'p>
        ensures same { result.now ≡ self.now.nested }
        ensures fit { IsFitNest (nested_of self.now.nested) }
    {
        &self.nested
    }

    // Whether some piece failed.
    pub(crate) fn has_failed(&self) -> bool
        ensures { IsTrue result ↔ HasFailed self.now }
    {
        some_failed(&self.slots)
    }

    // The slot of a member in a phase, if there is one.
    pub(crate) fn slot_at(&self, member: u8, phase: u8) -> Option<&Slot<'p>>
        ensures some { IfSome result (λ own. IsMarked self.now member phase (mark_of own.now)
            × IsRight (nested_of self.now.nested) member phase own.now) }
        ensures none { IfNone result ((mark : Mark) → ¬ IsMarked self.now member phase mark) }
    {
        let phases = usize::from(self.nested.phases());
        let place = usize::from(member) * phases + usize::from(phase);
        if usize::from(phase) >= phases {
            return None;
        }
        if place >= self.slots.len() {
            return None;
        }
        Some(&self.slots[place])
    }
}

// So many slots of waiting pieces.
fn waiting_slots<'p>(alloc: Global, count: usize) -> Result<Vec<Slot<'p>>, AllocError>
    ensures { IfOk result (λ slots. slots.items ≡ replicate count slot.Waiting) }
{
    let mut slots = Vec::with_capacity(alloc, count)?;
    for _place in 0..count {
        slots.push(Slot::Waiting)?;
    }
    Ok(slots)
}

// Whether each piece is filled or failed.
//
// Why from the last slot on: its piece comes after all others, so until they are settled the first comparison decides.
fn are_settled(slots: &[Slot]) -> bool
    ensures { IsTrue result ↔ AreSettled slots.now }
{
    for place in (0..slots.len()).rev() {
        if !slots[place].is_settled() {
            return false;
        }
    }
    true
}

// Whether some piece failed.
fn some_failed(slots: &[Slot]) -> bool
    ensures { IsTrue result ↔ HaveFailed slots.now }
{
    for slot in slots {
        if slot.is_failed() {
            return true;
        }
    }
    false
}

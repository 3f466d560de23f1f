//! Merging the writes of pieces.
ghost use Rattle.std.specs.Prelude.{◌≡◌, ◌*◌, ◌<◌, ◌≤◌, IfOk, IsErr, length};
ghost use Rattle.array_eval.specs.Traces.{fresh, noted_all};
ghost use Rattle.step_eval.specs.Nests.{nested_of, nested_writes};
ghost use Rattle.phase_order.specs.Pipes.{concat};
ghost use Rattle.pipe_sched.specs.Slots.{IsFull, HasFailed};
ghost use Rattle.pipe_sched.specs.Pipes.{IsUncrossed};
ghost use Rattle.pipe_sched.specs.Inside.{column, columns};

use crate::slot::Slot;
use crate::state::PipeState;
use array_eval::{MarkedStore, Overlay, Store};
use std::alloc::{AllocError, Global};
use step_eval::Nested;

impl<'p> PipeState<'p> {
    /// What the whole construct writes if no two of its pieces cross: each cell with its last value. The pieces may have come
    /// in any order. Every piece must be filled or failed.
    ///
    /// # Errors
    ///
    /// `AllocError` if a piece has failed, or an allocation fails.
    ///
    /// # Memory
    ///
    /// It allocates a store and the overlay.
    pub fn take_all(self) -> Result<Overlay, AllocError>
        requires { IsFull self }
        ensures failed { HasFailed self.entry → IsErr result }
        ensures written { IfOk result
            (λ overlay. IsUncrossed (nested_of self.entry.nested)
            → overlay.pairs ≡ nested_writes (nested_of self.entry.nested)) }
    {
        if self.has_failed() {
            return Err(AllocError);
        }
        let phases = usize::from(self.nested.phases());
        let members = usize::from(self.nested.members());
        let mut store = fresh_store(self.alloc, &self.nested)?;
        merge_phases(&self.slots, phases, members, phases, &mut store);
        store.written(self.alloc)
    }
}

// The store before a construct, no cell of which is marked.
pub(crate) fn fresh_store(alloc: Global, nested: &Nested) -> Result<MarkedStore, AllocError>
    ensures { IfOk result (λ store. store ≡ fresh nested.now.store) }
{
    MarkedStore::new(alloc, &nested.store)
}

// The store before a construct.
pub(crate) fn first_store(nested: &Nested) -> Result<Store, AllocError>
    ensures { IfOk result (λ store. store ≡ nested.now.store) }
{
    nested.store.copy()
}

// Merges the writes of the first members in the first phases: phase after phase, and member after member.
pub(crate) fn merge_phases(
    slots: &[Slot],
    phases: usize,
    members: usize,
    upto: usize,
    store: &mut MarkedStore,
)
    requires there { members * phases ≤ length slots.now }
    requires upto { upto ≤ phases }
    ensures { store.new ≡ noted_all (concat (concat (columns phases slots.now members upto))) store.old }
{
    for phase in 0..upto {
        merge_phase(slots, phases, members, phase, store);
    }
}

// Merges the writes of the first members in a phase, member after member.
pub(crate) fn merge_phase(
    slots: &[Slot],
    phases: usize,
    members: usize,
    phase: usize,
    store: &mut MarkedStore,
)
    requires there { members * phases ≤ length slots.now }
    requires phase { phase < phases }
    ensures { store.new ≡ noted_all (concat (column phases slots.now phase members)) store.old }
{
    for member in 0..members {
        if let Slot::Filled(_, written) = &slots[member * phases + phase] {
            store.merge(written);
        }
    }
}

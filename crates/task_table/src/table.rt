//! The table of tasks.
ghost use Rattle.std.specs.Prelude.{◌≡◌, ◌≢◌, ◌<◌, [], ◌∷◌, All, length, map, IfOk, MatchOption, Option, alloc_error};
ghost use mathlib.Core.Option.{some};
ghost use lib.ListN.{get_elem?};
ghost use Rattle.atomic_table.specs.Table.{rest};
ghost use Rattle.task_table.specs.Slots.{Ends};

use crate::rule::{Claim, Collect, Give, Sit, TaskRule};
use crate::slot::{Outcome, TaskList, TaskSeat, TaskSlot, TaskView};
use atomic_table::{Refused, Table};
use std::alloc::{AllocError, Global};
use std::snapshot::Snapshot;
use tasks::TaskKind;

/// Tasks that wait, and the outcomes of those that have ended. Harts share it by reference.
#[derive(Drop)]
pub struct TaskTable<T: TaskKind> {
    pub(crate) table: Table<TaskSlot<T, Outcome<T>>, TaskView<T>, TaskList<T>, TaskRule<T>, Global>,
    pub(crate) count: usize,
    pub ghost words: { table.shared.table_id.words ≡ count },
    pub ghost slots: { table.shared.table_id.slots ≡ count },
    pub ghost counts: { length table.shared.key.value.items ≡ count },
}

// Each task, as it waits.
fn waiting<T: TaskKind>(
    alloc: Global,
    tasks: Vec<T>,
) -> Result<Vec<TaskSlot<T, Outcome<T>>>, AllocError>
    ensures { IfOk result (λ slots. slots.items ≡ map (λ task. TaskSlot.Waits task) tasks.items) }
{
    let mut slots = Vec::with_capacity(alloc, tasks.len())?;
    let mut rest = tasks.into_iter();
    'tasks: while let Some(task) = rest.next() {
        slots.push(TaskSlot::Waits(task))?;
    }
    Ok(slots)
}

impl<T: TaskKind> TaskTable<T> {
    /// Makes a table of these tasks, none of which is claimed.
    ///
    /// # Errors
    ///
    /// An allocation failure.
    ///
    /// # Memory
    ///
    /// A word and a slot for each task, in two blocks.
    pub fn new(alloc: Global, tasks: Vec<T>) -> Result<TaskTable<T>, AllocError>
        requires { All T.ready tasks.items }
        ensures { IfOk result (λ made. made.table.shared.key.value.items ≡ tasks.items) }
    {
        let count = tasks.len();
        let key = Snapshot::of(&tasks);
        let words = Vec::from_elem(alloc, 0u64, count)?;
        let slots = waiting(alloc, tasks)?;
        match Table::new(alloc, words.as_slice(), slots, &key) {
            Ok((table, _seat)) => Ok(TaskTable { table, count }),
            Err(Refused { slots: _ }) => Err(AllocError),
        }
    }

    /// The number of tasks.
    pub fn count(&self) -> usize
        ensures { result ≡ length self.now.table.shared.key.value.items }
    {
        self.count
    }

    /// Takes a seat. Does not allocate.
    pub fn seat(&self) -> TaskSeat<T>
        requires { 0 < length self.now.table.shared.key.value.items }
        ensures of { result.table_id ≡ self.now.table.shared.table_id }
        ensures knows { result.me.0.tasks ≡ self.now.table.shared.key }
        ensures holds_none { result.me.1 ≡ [] }
        ensures took { result.me.0.took ≡ [] }
        ensures gave { result.me.0.gave ≡ [] }
        ensures got { result.me.0.got ≡ [] }
    {
        self.table.shared.load_new_seat::<Sit>(0).1
    }

    /// Claims the task at an index, and no other. `None` only if the seat read in the task's word that a hart claimed the task.
    pub fn claim(&self, seat: &mut TaskSeat<T>, place: usize) -> Option<T>
        requires of { seat.old.table_id ≡ self.now.table.shared.table_id }
        requires knows { seat.old.me.0.tasks ≡ self.now.table.shared.key }
        requires place { place < length self.now.table.shared.key.value.items }
        ensures of { seat.new.table_id ≡ seat.old.table_id }
        ensures knows { seat.new.me.0.tasks ≡ seat.old.me.0.tasks }
        ensures task { MatchOption result (seat.new.me.1 ≡ seat.old.me.1)
            (λ task. (get_elem? self.now.table.shared.key.value.items place ≡ some task)
            × (seat.new.me.1 ≡ (place, TaskSlot.Out) ∷ seat.old.me.1)) }
        ensures ready { MatchOption result (Unit {0}) T.ready }
        ensures taken { MatchOption result
            ((seat.new.me.0.place ≡ place) × (seat.new.me.0.found ≢ 0)) (λ _. Unit {0}) }
        ensures took { MatchOption result (seat.new.me.0.took ≡ seat.old.me.0.took)
            (λ _. seat.new.me.0.took ≡ place ∷ seat.old.me.0.took) }
        ensures gave { seat.new.me.0.gave ≡ seat.old.me.0.gave }
        ensures got { seat.new.me.0.got ≡ seat.old.me.0.got }
    {
        let found = self
            .table
            .shared
            .compare_exchange::<Claim<T>>(seat, place, 0, 1);
        if found == 0 {
            let TaskSlot::Waits(task) = self.table.shared.exchange(seat, place, TaskSlot::Out)
            else {
                unreachable!()
            };
            return Some(task);
        }
        None
    }

    /// Stores the outcome of the task that this seat claimed last, for the seat that collects it.
    pub fn give(&self, seat: &mut TaskSeat<T>, place: usize, outcome: Outcome<T>)
        requires of { seat.old.table_id ≡ self.now.table.shared.table_id }
        requires knows { seat.old.me.0.tasks ≡ self.now.table.shared.key }
        requires place { place < length self.now.table.shared.key.value.items }
        requires claimed { seat.old.me.1 ≡ (place, TaskSlot.Out) ∷ rest seat.old.me.1 }
        requires ends { (task : T) → get_elem? self.now.table.shared.key.value.items place ≡ some task
            → Ends T.gives T.fails (T.Error.from_gives alloc_error) task outcome }
        ensures of { seat.new.table_id ≡ seat.old.table_id }
        ensures knows { seat.new.me.0.tasks ≡ seat.old.me.0.tasks }
        ensures given { seat.new.me.1 ≡ rest seat.old.me.1 }
        ensures took { seat.new.me.0.took ≡ seat.old.me.0.took }
        ensures gave { seat.new.me.0.gave ≡ (place, outcome) ∷ seat.old.me.0.gave }
        ensures got { seat.new.me.0.got ≡ seat.old.me.0.got }
    {
        let _out = self
            .table
            .shared
            .exchange(seat, place, TaskSlot::Ended(outcome));
        self.table.shared.store::<Give>(seat, place, 2);
    }

    /// Collects the outcome of the task at an index, and no other: by the table's invariant the one that a seat stored there. `None`
    /// only if the seat read in the task's word that there is no outcome.
    pub fn collect(&self, seat: &mut TaskSeat<T>, place: usize) -> Option<Outcome<T>>
        requires of { seat.old.table_id ≡ self.now.table.shared.table_id }
        requires knows { seat.old.me.0.tasks ≡ self.now.table.shared.key }
        requires place { place < length self.now.table.shared.key.value.items }
        ensures of { seat.new.table_id ≡ seat.old.table_id }
        ensures knows { seat.new.me.0.tasks ≡ seat.old.me.0.tasks }
        ensures outcome { MatchOption result (seat.new.me.1 ≡ seat.old.me.1)
            (λ outcome. (task : T) → get_elem? self.now.table.shared.key.value.items place ≡ some task
            → Ends T.gives T.fails (T.Error.from_gives alloc_error) task outcome) }
        ensures holds { MatchOption result (Unit {0})
            (λ _. seat.new.me.1 ≡ (place, TaskSlot.Out) ∷ seat.old.me.1) }
        ensures absent { MatchOption result
            ((seat.new.me.0.place ≡ place) × (seat.new.me.0.found ≢ 2)) (λ _. Unit {0}) }
        ensures took { seat.new.me.0.took ≡ seat.old.me.0.took }
        ensures gave { seat.new.me.0.gave ≡ seat.old.me.0.gave }
        ensures got { MatchOption result (seat.new.me.0.got ≡ seat.old.me.0.got)
            (λ outcome. seat.new.me.0.got ≡ (place, outcome) ∷ seat.old.me.0.got) }
    {
        let found = self
            .table
            .shared
            .compare_exchange::<Collect<T>>(seat, place, 2, 3);
        if found == 2 {
            let TaskSlot::Ended(outcome) = self.table.shared.exchange(seat, place, TaskSlot::Out)
            else {
                unreachable!()
            };
            return Some(outcome);
        }
        None
    }
}

//! The invariant of a table of tasks, and what each kind of step ensures.
use crate::slot::{Outcome, SeatView, TaskList, TaskSlot, TaskView};
use atomic_table::{Play, TableRule};
use std::marker::PhantomData;
use tasks::TaskKind;

/// A slot holds its task, or an outcome of that task.
pub struct TaskRule<T> {
    marker: PhantomData<T>,
}

impl<T: TaskKind> TableRule<TaskSlot<T, Outcome<T>>, TaskView<T>, TaskList<T>> for TaskRule<T> {
    ghost use Rattle.std.specs.Prelude.{alloc_error, []};
    ghost use Rattle.task_table.specs.Slots.{TasksStand, Ends};

    ghost holds = { λ key. TasksStand T.ready (Ends T.gives T.fails (T.Error.from_gives alloc_error)) key key.value.items };

    ghost first = { λ key. record { tasks = key; place = 0; found = 0; took = []; gave = []; got = [] } };
}

/// The load by which a hart takes a seat.
pub struct Sit;

impl<T, R> Play<TaskSlot<T, R>, SeatView<TaskList<T>, R>> for Sit {
    ghost use Rattle.std.specs.Prelude.{◌≡◌, []};

    ghost then = { λ s me found after. (after.0.tasks ≡ me.0.tasks) × (after.0.took ≡ []) × (after.0.gave ≡ []) × (after.0.got ≡ []) };
}

/// The exchange by which a task is claimed.
pub struct Claim<T> {
    marker: PhantomData<T>,
}

impl<T: TaskKind> Play<TaskSlot<T, Outcome<T>>, TaskView<T>> for Claim<T> {
    ghost use Rattle.task_table.specs.Slots.{Claims};

    ghost then = { λ s me found after. Claims T.ready me.0.tasks.value.items me s.word found after };
}

/// The store by which a hart stores an outcome.
pub struct Give;

impl<T, R> Play<TaskSlot<T, R>, SeatView<TaskList<T>, R>> for Give {
    ghost use Rattle.task_table.specs.Slots.{Gives};

    ghost then = { λ s me found after. Gives me s.word after };
}

/// The exchange by which an outcome is collected.
pub struct Collect<T> {
    marker: PhantomData<T>,
}

impl<T: TaskKind> Play<TaskSlot<T, Outcome<T>>, TaskView<T>> for Collect<T> {
    ghost use Rattle.std.specs.Prelude.{alloc_error};
    ghost use Rattle.task_table.specs.Slots.{Collects, Ends};

    ghost then = { λ s me found after. Collects (Ends T.gives T.fails (T.Error.from_gives alloc_error)) me.0.tasks.value.items me s.word found after };
}

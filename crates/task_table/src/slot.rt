//! The contents of a slot, and the view of a seat.
use atomic_table::Seat;
use std::collections::LinkedList;
use std::snapshot::Snapshot;
use tasks::TaskKind;

/// The contents of a slot.
#[derive(Drop)]
pub enum TaskSlot<T, R> {
    /// A task that waits.
    Waits(T),
    /// The outcome of a task that has ended.
    Ended(R),
    /// Nothing: a hart has the task, or its outcome was collected.
    Out,
}

/// How a task ends: with an output or an error.
pub type Outcome<T> = Result<<T as TaskKind>::Output, <T as TaskKind>::Error>;

/// The tasks of a table, as contracts see them.
pub type TaskList<T> = Snapshot<Vec<T>>;

/// What a seat knows: no value of this type is made. A clause reads an array as a list of any length. Lists have the newest
/// entry first. Why linked lists: their layout is that of no element.
pub struct SeatView<K, R> {
    /// The tasks of the table.
    pub tasks: K,
    /// The index whose word the seat read last.
    pub place: usize,
    /// The number that was in that word.
    pub found: u64,
    /// The indices of the tasks that the seat has claimed.
    pub took: [usize; 0],
    /// The outcomes that the seat has stored, each with its index.
    pub gave: LinkedList<(usize, R)>,
    /// The outcomes that the seat has collected, each with its index.
    pub got: LinkedList<(usize, R)>,
}

/// What a seat at a table of tasks of a kind knows.
pub type TaskView<T> = SeatView<TaskList<T>, Outcome<T>>;

/// One hart's seat at a table of tasks.
pub type TaskSeat<T> = Seat<TaskSlot<T, Outcome<T>>, TaskView<T>>;

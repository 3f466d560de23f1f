//! A kind of tasks that holds another.
ghost use Rattle.std.specs.Prelude.{◌≡◌, Some, alloc_error};

use tasks::TaskKind;

/// A kind of tasks that holds tasks of the kind `T`.
pub trait Holds<T: TaskKind>: TaskKind {
    /// The task, as a task of this kind.
    ghost held: { T → Self };

    /// Turns a task into a task of this kind, which requires no more than the task alone.
    fn hold(task: T) -> Self
        ensures held { result ≡ held task }
        ensures ready { T.ready task → Self.ready result };

    /// Turns an output of a task that was held into that task's own. `None` only if no task of the kind `T` has it.
    fn output_of(output: Self::Output) -> Option<T::Output>
        ensures { (task : T) → Self.gives (held task) output
            → (own : T.Output) × (result ≡ Some own) × T.gives task own };

    /// Turns an error of a task that was held into that task's own, and an allocation failure into one.
    fn error_of(error: Self::Error) -> T::Error
        ensures own { (task : T) → Self.fails (held task) error → T.fails task result }
        ensures memory { Self.Error.from_gives alloc_error error
            → T.Error.from_gives alloc_error result };

    /// A task that is held has as many levels of tasks inside as it has alone.
    ghost same_depth: { (task : T) → Self.depth (held task) ≡ T.depth task };

    /// If a held task has an output, the task alone has one too.
    ghost same_outcome: { (task : T) (output : Self.Output) → Self.gives (held task) output
        → (own : T.Output) × T.gives task own };
}

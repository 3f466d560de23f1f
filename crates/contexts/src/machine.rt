//! Machines: computations that run step by step.
ghost use Rattle.std.specs.Prelude.{◌≡◌, false};
ghost use Rattle.contexts.specs.Machine.{Work, Steps};
ghost use Rattle.contexts.specs.declared.machine.Step.{Step};

/// The result of one step of a machine. `N` is a piece of work that others do for the machine.
#[derive(Clone, Copy, Debug, PartialEq, Eq, Drop)]
pub enum Step<N> {
    /// The step is done, and there is work left.
    More,
    /// The machine hands out this piece of work, and may wait until its writes are supplied.
    Nest(N),
    /// No work is left. Every later step returns this again.
    Finished,
    /// An allocation failed.
    NoMemory,
}

/// A computation that runs step by step.
///
/// Why: contracts state of every machine that its writes come off what was to be written, that handing out a piece writes
/// nothing, and that the work left falls. Whether a machine waits for a piece's writes is its own matter.
pub trait Machine {
    /// A piece of work that the machine hands out.
    type Nested;

    /// The work that the machine has left.
    ghost work: { Self → Work };

    /// Relates the machine, the result of a step, and the machine afterwards.
    ghost steps: { Self → Step Self.Nested → Self → Type 0 };

    /// Does one step. The machine waits for no writes.
    fn step(&mut self) -> Step<Self::Nested>
        requires { (work self.old).awaits ≡ false }
        ensures exact { steps self.old result self.new }
        ensures work { Steps (work self.old) result (work self.new) };
}

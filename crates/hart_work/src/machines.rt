//! Machines that run jobs.
ghost use Rattle.std.specs.Prelude.{◌≡◌, ℕ, ℤ, List, IfOk, OnOk};
ghost use Rattle.contexts.specs.declared.machine.Step.TheVariants.{Finished};
ghost use Rattle.transfer_table.specs.Plan.{Plan};
ghost use Rattle.transfer_table.specs.declared.entry.Entry.{Entry};
ghost use Rattle.hart_work.specs.Steps.{Goes};
ghost use Rattle.hart_work.specs.Accounts.{Account, Accounts, IsFreshChild};

use crate::found::Found;
use contexts::{Running, Step};
use std::alloc::{AllocError, Global};

/// Machines that run jobs, each a step at a time.
///
/// Some ghost members are about the sites of a job. A hart that keeps an account of its sites uses them.
pub trait Machines {
    /// The work of a piece. A `Piece` is a job with its writes.
    type Job;

    type Piece: Drop;

    /// A construct that a piece hands out. `Written` is its writes.
    type Nested: Drop;

    type Written: Drop;

    /// The machine of a job.
    type Machine: Drop;

    /// The job of a machine and of a piece, and the phase and the index of a job.
    ghost job_of: { Self.Machine → Self.Job };

    ghost job_in: { Self.Piece → Self.Job };

    ghost phase_of: { Self.Job → ℕ };

    ghost place_of: { Self.Job → ℕ };

    /// The site of a construct, its writes, and the cells that a value of `Written` has.
    ghost number_of: { Self.Nested → ℕ };

    ghost writes_of: { Self.Nested → List (ℕ × ℤ) };

    ghost written_in: { Self.Written → List (ℕ × ℤ) };

    /// Whether a machine may be stepped, the writes that it awaits, the greatest number of its remaining steps, and whether its
    /// job is done.
    ghost ready: { Self.Machine → Type 0 };

    ghost awaits: { Self.Machine → List (ℕ × ℤ) → Type 0 };

    ghost steps_left: { Self.Machine → ℕ };

    ghost finished: { Self.Machine → Type 0 };

    /// The sites of a job, and of a construct, are fresh and inside this site.
    ghost fresh_job: { Plan → ℕ → List Entry → Self.Job → Type 0 };

    ghost fresh: { Plan → ℕ → List Entry → Self.Nested → Type 0 };

    /// Between these entries a job has run, and a construct: its sites came and went, or were skipped, as it enters them, and
    /// no other site was touched.
    ghost ran_job: { Plan → List Entry → List Entry → Self.Job → Type 0 };

    ghost ran: { Plan → List Entry → List Entry → Self.Nested → Type 0 };

    /// Between these entries a machine has run its job up to its current state, and up to a construct that it awaits.
    ghost going: { Self.Machine → Account };

    ghost awaiting: { Self.Nested → Self.Machine → Account };

    /// A machine for a job.
    ///
    /// # Errors
    ///
    /// `AllocError` if an allocation fails.
    fn start(alloc: Global, job: Self::Job) -> Result<Running<Self::Machine>, AllocError>
        ensures job { IfOk result (λ machine. job_of machine ≡ job) }
        ensures ready { IfOk result (λ machine. ready machine) }
        ensures going { IfOk result (λ machine. (p : Plan) (around : ℕ) (es : List Entry)
            → fresh_job p around es job → going machine p around es es) };

    /// One step of a machine that awaits nothing.
    fn step(running: &mut Running<Self::Machine>) -> Step<Found<Self::Nested>>
        requires { ready running.old }
        ensures goes { Goes writes_of result (steps_left running.old) (steps_left running.new)
            (ready running.new) (awaits running.new) (job_of running.new ≡ job_of running.old) }
        ensures account { Accounts fresh (λ p start es. ran_job p start es (job_of running.old))
            (going running.old) (going running.new) (λ nested. awaiting nested running.new) result }
        ensures finished { result ≡ Finished → finished running.new };

    /// Gives a machine the writes of the construct that it awaits.
    ///
    /// # Errors
    ///
    /// `AllocError` if an allocation fails.
    fn supply(
        running: &mut Running<Self::Machine>,
        written: Self::Written,
    ) -> Result<(), AllocError>
        requires { awaits running.old (written_in written) }
        ensures job { OnOk result (job_of running.new ≡ job_of running.old) }
        ensures ready { OnOk result (ready running.new) }
        ensures left { OnOk result (steps_left running.new ≡ steps_left running.old) }
        ensures going { OnOk result ((nested : Self.Nested) (p : Plan) (around : ℕ)
            (start es es' : List Entry) → awaiting nested running.old p around start es
            → ran p es es' nested → going running.new p around start es') };

    /// The piece of a machine whose job is done. Why a bare machine: the procedure ends the context, so no method of a trait
    /// takes a context by value.
    fn end(machine: Self::Machine) -> Self::Piece
        requires { finished machine }
        ensures { job_in result ≡ job_of machine };

    /// The site of a construct.
    fn number(nested: &Self::Nested) -> u16
        ensures number { result ≡ number_of nested.now }
        ensures child { (p : Plan) (around : ℕ) (es : List Entry) → fresh p around es nested.now
            → IsFreshChild p around es result };

    /// The phase of a job.
    fn phase(job: &Self::Job) -> u8
        ensures { result ≡ phase_of job.now };

    /// The index of a job in its phase.
    fn place(job: &Self::Job) -> u8
        ensures { result ≡ place_of job.now };

    /// The writes of the construct, computed by this hart alone.
    ///
    /// # Errors
    ///
    /// `AllocError` if an allocation fails.
    fn compute(alloc: Global, nested: Self::Nested) -> Result<Self::Written, AllocError>
        ensures { IfOk result (λ written. written_in written ≡ writes_of nested) };
}

//! The states of a context, and the calls that lead from one to another.
ghost use Rattle.std.specs.Prelude.{◌≡◌, false, MatchResult};
ghost use Rattle.std.specs.Borrow.{Lends, sem};
ghost use Rattle.contexts.specs.Machine.{Steps};
ghost use Rattle.contexts.specs.contracts.context.Running.{the_row};

use crate::{Machine, Step};
use std::alloc::Global;
use std::marker::Model;

/// A context that hasn't run. It must be passed to `ctx_run` or `abandon`.
pub struct Fresh<M> {
    machine: Box<M>,
}

impl<M> Model for Fresh<M> {
    ghost use Rattle.std.specs.Prelude.{◌≡◌};

    ghost Value = { M };

    ghost view = { λ c. c.machine.value };
}

/// A context that a hart runs. It must be passed to `ctx_pause`, `ctx_block`, `ctx_fini` or `abandon`.
pub struct Running<M> {
    machine: Box<M>,
}

impl<M> Model for Running<M> {
    ghost use Rattle.std.specs.Prelude.{◌≡◌};

    ghost Value = { M };

    ghost view = { λ c. c.machine.value };
}

/// A context that waits to be resumed. It may be dropped with its machine.
#[derive(Drop)]
pub struct Paused<M> {
    machine: Box<M>,
}

impl<M> Model for Paused<M> {
    ghost use Rattle.std.specs.Prelude.{◌≡◌};

    ghost Value = { M };

    ghost view = { λ c. c.machine.value };
}

/// A context that waits at a mutex. It may be dropped with its machine.
#[derive(Drop)]
pub struct Blocked<M> {
    machine: Box<M>,
}

impl<M> Model for Blocked<M> {
    ghost use Rattle.std.specs.Prelude.{◌≡◌};

    ghost Value = { M };

    ghost view = { λ c. c.machine.value };
}

/// A context that is done. It must be passed to `into_machine`.
pub struct Ended<M> {
    machine: Box<M>,
}

impl<M> Model for Ended<M> {
    ghost use Rattle.std.specs.Prelude.{◌≡◌};

    ghost Value = { M };

    ghost view = { λ c. c.machine.value };
}

/// The allocation of a context failed. It has the machine.
pub struct InitRefused<M> {
    pub machine: M,
}

/// Makes a fresh context with this machine.
///
/// # Errors
///
/// `InitRefused`, with the machine, if the allocation fails.
///
/// # Memory
///
/// It allocates one box for the machine. No other call of this crate allocates.
pub fn ctx_init<M>(alloc: Global, machine: M) -> Result<Fresh<M>, InitRefused<M>>
    ensures { MatchResult result (λ c. c ≡ machine) (λ refused. refused.machine ≡ machine) }
{
    match Box::new(alloc, machine) {
        Ok(machine) => Ok(Fresh { machine }),
        Err(refused) => Err(InitRefused {
            machine: refused.value,
        }),
    }
}

/// Begins to run a fresh context.
pub fn ctx_run<M>(c: Fresh<M>) -> Running<M>
    ensures { result ≡ c }
{
    let Fresh { machine } = c;
    Running { machine }
}

/// Puts a running context aside.
pub fn ctx_pause<M>(c: Running<M>) -> Paused<M>
    ensures { result ≡ c }
{
    let Running { machine } = c;
    Paused { machine }
}

/// Runs a paused context again.
pub fn ctx_resume<M>(c: Paused<M>) -> Running<M>
    ensures { result ≡ c }
{
    let Paused { machine } = c;
    Running { machine }
}

/// Makes a running context wait at a mutex.
pub fn ctx_block<M>(c: Running<M>) -> Blocked<M>
    ensures { result ≡ c }
{
    let Running { machine } = c;
    Blocked { machine }
}

/// Ends the wait of a blocked context, which may be resumed then.
pub fn ctx_unblock<M>(c: Blocked<M>) -> Paused<M>
    ensures { result ≡ c }
{
    let Blocked { machine } = c;
    Paused { machine }
}

/// Ends a running context that is done.
pub fn ctx_fini<M>(c: Running<M>) -> Ended<M>
    ensures { result ≡ c }
{
    let Running { machine } = c;
    Ended { machine }
}

impl<M> Fresh<M> {
    /// Ends the context before it is done, and returns its machine.
    pub fn abandon(self) -> M
        ensures { result ≡ self }
    {
        let Fresh { machine } = self;
        Box::into_inner(machine)
    }
}

impl<M> Running<M> {
    /// The machine, to be read and changed.
    pub fn machine(&mut self) -> &mut M
        ensures* lends { sem 𝓛 (Lends (the_row M.row) M.row self.entry result (λ w. w)) }
        ensures value { result.now ≡ self.old }
    {
        &mut self.machine
    }

    /// Ends the context before it is done, and returns its machine.
    pub fn abandon(self) -> M
        ensures { result ≡ self }
    {
        let Running { machine } = self;
        Box::into_inner(machine)
    }
}

impl<M: Machine> Running<M> {
    /// The machine's own step. The machine waits for no writes.
    pub fn step(&mut self) -> Step<M::Nested>
        requires { (M.work self.old).awaits ≡ false }
        ensures exact { M.steps self.old result self.new }
        ensures work { Steps (M.work self.old) result (M.work self.new) }
    {
        self.machine.step()
    }
}

impl<M> Paused<M> {
    /// Ends the context before it is done, and returns its machine.
    pub fn abandon(self) -> M
        ensures { result ≡ self }
    {
        let Paused { machine } = self;
        Box::into_inner(machine)
    }
}

impl<M> Blocked<M> {
    /// Ends the context before it is done, and returns its machine.
    pub fn abandon(self) -> M
        ensures { result ≡ self }
    {
        let Blocked { machine } = self;
        Box::into_inner(machine)
    }
}

impl<M> Ended<M> {
    /// The machine of a context that is done.
    pub fn into_machine(self) -> M
        ensures { result ≡ self }
    {
        let Ended { machine } = self;
        Box::into_inner(machine)
    }
}

//! Machines that run to their ends.
ghost use Rattle.std.specs.Prelude.{◌≡◌, false, IfOk};
ghost use Rattle.piece_tests.specs.declared.driving.Turn.TheVariants.{Over};
ghost use Rattle.step_eval.specs.Machines.{is_awaiting, Advances, IsFinished};

use array_jobs::{Job, Piece};
use contexts::{Machine, Step};
use disjoint_check::{Accepted, check};
use sample_programs::parsed;
use std::alloc::Global;
use std::test::Fail;
use step_eval::{Found, StepMachine, compute};

/// Whether this holds of the program of a text, which must be accepted.
///
/// # Errors
///
/// A failure of the test if the program isn't accepted, or an allocation fails.
pub fn holds<F: Fn(Global, &Accepted) -> Result<bool, Fail>>(
    alloc: Global,
    text: &[u8],
    looks: &F,
) -> Result<bool, Fail>
    requires { F.IsAlwaysCallable looks.now }
{
    let program = parsed(alloc, text)?;
    let accepted = check(alloc, &program, 1)?;
    looks(alloc, &accepted)
}

/// One step.
pub fn stepped<'p>(machine: &mut StepMachine<'p>) -> Step<Found<'p>>
    requires { is_awaiting machine.old.stage ≡ false }
    ensures { Advances machine.old result machine.new }
{
    machine.step()
}

/// The result of a step, if no allocation failed.
#[derive(Clone, Copy, Debug, PartialEq, Eq, Drop)]
pub enum Turn {
    On,
    /// A construct was handed out, and its writes were supplied.
    Construct,
    /// The hart has to skip these sites.
    Pass { first: u16, end: u16 },
    Over,
}

// One step, and the supply of the construct that it hands out.
fn turned(alloc: Global, machine: &mut StepMachine) -> Result<Turn, Fail>
    requires { is_awaiting machine.old.stage ≡ false }
    ensures going { IfOk result (λ _. is_awaiting machine.new.stage ≡ false) }
    ensures over { IfOk result (λ turn. turn ≡ Over → IsFinished machine.new) }
{
    match stepped(machine) {
        Step::More => Ok(Turn::On),
        Step::Finished => Ok(Turn::Over),
        Step::Nest(Found::Nest(nested)) => {
            machine.supply(&compute(alloc, &nested)?)?;
            Ok(Turn::Construct)
        }
        Step::Nest(Found::Pass { first, end }) => Ok(Turn::Pass { first, end }),
        Step::NoMemory => Err(Fail::new("out of memory")),
    }
}

/// The piece of a job by its machine, which is supplied with the writes of each construct.
///
/// # Errors
///
/// A failure of the test if an allocation fails.
pub fn driven<'p>(alloc: Global, job: Job<'p>) -> Result<Piece<'p>, Fail> {
    let mut machine = StepMachine::new(alloc, job)?;
    for _ in 0..u64::MAX {
        if turned(alloc, &mut machine)? == Turn::Over {
            return Ok(machine.into_piece());
        }
    }
    Err(Fail::new("a machine without an end"))
}

/// The results of the steps of a job, one after another, until no work remains.
///
/// # Errors
///
/// A failure of the test if an allocation fails.
pub fn turns(alloc: Global, job: Job<'_>) -> Result<Vec<Turn>, Fail> {
    let mut machine = StepMachine::new(alloc, job)?;
    let mut turns = Vec::new(alloc);
    for _ in 0..u64::MAX {
        let last = turned(alloc, &mut machine)?;
        turns.push(last)?;
        if last == Turn::Over {
            return Ok(turns);
        }
    }
    Err(Fail::new("a machine without an end"))
}

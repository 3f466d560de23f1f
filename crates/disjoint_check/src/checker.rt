//! The check of a program.
ghost use Rattle.std.specs.Prelude.{◌≡◌, ◌≤◌, ◌⊎◌, IfOk, IfErr, OnOk, Some};
ghost use Rattle.array_tree.specs.Trees.{program_of};
ghost use Rattle.disjoint_check.specs.FaultOf.{meaning_fault_of, check_fault_of};
ghost use Rattle.disjoint_check.specs.Meaning.{HasMeaningFor, IsAcceptedFor};

use crate::accepted::{Accepted, accept};
use crate::fault::CheckFault;
use crate::limits::limit_fault;
use array_tree::Program;
use site_walk::{walk_indices, walk_program};
use std::alloc::Global;

/// Checks whether a program may be run in parallel by `harts` harts, one to sixteen. Returns what is known of an accepted
/// program.
///
/// Units, sites and pieces are counted from the bounds of loops, in numbers that can't overflow. The plan is unrolled only for
/// a program inside the limits.
///
/// Names, ranges and sizes take time in proportion to the text; each name is also searched among all arrays and the loops
/// around. The walk takes time in proportion to the units of work, and starts only if there are at most 1,048,576.
///
/// # Errors
///
/// The first condition that the program fails, or `CheckFault::Memory` if an allocation fails, at any time.
///
/// # Memory
///
/// It allocates the plan and the walk's tables.
#[tactic(auto, using(crate::proofs::Accepting::limit_is_first, crate::proofs::Accepting::walk_is_next))]
pub fn check<'p>(alloc: Global, program: &'p Program, harts: u8) -> Result<Accepted<'p>, CheckFault>
    requires some_hart { 1 ≤ harts }
    requires few_harts { harts ≤ 16 }
    ensures program { IfOk result (λ a. a.program ≡ program.now) }
    ensures harts { IfOk result (λ a. a.plan.harts ≡ harts) }
    ensures accepted { IfOk result (λ a. IsAcceptedFor (program_of program.now) harts) }
    ensures fault { IfErr result
        (λ why. (why ≡ CheckFault.Memory) ⊎ (check_fault_of (program_of program.now) harts ≡ Some why)) }
{
    if let Some(fault) = limit_fault(program, harts) {
        return Err(fault);
    }
    walk_program(alloc, program)?;
    accept(alloc, program, harts)
}

/// Checks all conditions but the last, that no two pieces overlap: whether a program has a meaning that `harts` harts, one to
/// sixteen, could keep a journal of.
///
/// It takes time as `check` does, and searches for no overlaps.
///
/// # Errors
///
/// The first condition that the program fails, or `CheckFault::Memory` if an allocation fails, at any time.
///
/// # Memory
///
/// It allocates the layout of the arrays.
#[tactic(auto, using(crate::proofs::Accepting::limit_before_meaning, crate::proofs::Accepting::index_is_next))]
pub fn check_meaning(alloc: Global, program: &Program, harts: u8) -> Result<(), CheckFault>
    requires some_hart { 1 ≤ harts }
    requires few_harts { harts ≤ 16 }
    ensures meaning { OnOk result (HasMeaningFor (program_of program.now) harts) }
    ensures fault { IfErr result
        (λ why. (why ≡ CheckFault.Memory)
        ⊎ (meaning_fault_of (program_of program.now) harts ≡ Some why)) }
{
    if let Some(fault) = limit_fault(program, harts) {
        return Err(fault);
    }
    walk_indices(alloc, program)?;
    Ok(())
}

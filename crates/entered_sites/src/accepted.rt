//! The sites that an accepted program enters.
ghost use Rattle.std.specs.Prelude.{◌≡◌, IfOk, length};
ghost use Rattle.array_tree.specs.Trees.{program_of};
ghost use Rattle.array_meaning.specs.Entered.{entered_of};
ghost use Rattle.transfer_table.specs.Plan.{site_count};

use crate::walk::entered;
use disjoint_check::Accepted;
use std::alloc::{AllocError, Global};

/// For each site of an accepted program's plan, in the plan's order: whether the one-thread meaning enters it from zero cells.
///
/// # Errors
///
/// `AllocError` if an allocation fails.
///
/// # Memory
///
/// It allocates a flag for each site, and a store if a construct is under an `if`.
pub fn entered_by(alloc: Global, accepted: &Accepted<'_>) -> Result<Vec<bool>, AllocError>
    ensures entered { IfOk result
        (λ list. list.items ≡ entered_of (program_of accepted.now.program)) }
    ensures each { IfOk result (λ list. length list.items ≡ site_count accepted.now.plan) }
{
    entered(alloc, accepted.program(), accepted.plan().sites())
}

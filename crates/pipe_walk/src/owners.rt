//! The array that a cell belongs to.
ghost use Rattle.std.specs.Prelude.{◌≡◌, ◌++◌, IfOk, OnOk, replicate};
ghost use Rattle.pipe_walk.specs.Inside.Owners.{owners_from};

use array_eval::Layout;
use std::alloc::{AllocError, Global};

/// For each cell the index of its array among the arrays.
pub(crate) fn owners_of(alloc: Global, layout: &Layout) -> Result<Vec<usize>, AllocError>
    ensures { IfOk result (λ owners. owners.items ≡ owners_from 0 layout.now) }
{
    let mut owners = Vec::with_capacity(alloc, layout.cells())?;
    let arrays = layout.arrays();
    for (number, array) in arrays.declarations.iter().enumerate() {
        push_owner(&mut owners, number, array.length.unsigned_abs())?;
    }
    Ok(owners)
}

// The same array for so many more cells.
#[tactic(auto, using(crate::proofs::OwnerLemmas::replicate_more))]
fn push_owner(owners: &mut Vec<usize>, number: usize, cells: u64) -> Result<(), AllocError>
    ensures { OnOk result (owners.new.items ≡ owners.old.items ++ replicate cells number) }
{
    for _ in 0..cells {
        owners.push(number)?;
    }
    Ok(())
}

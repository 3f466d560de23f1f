//! The cells of the given program.
ghost use Rattle.std.specs.Prelude.{◌≡◌, ◌≤◌, length, take, IfOk};

use array_eval::Store;
use std::alloc::{AllocError, Global};

/// A store of the first `cells` cells of another, which must have them: the cells of the given program in the store that a
/// spread program leaves.
///
/// # Errors
///
/// `AllocError` if an allocation fails.
///
/// # Memory
///
/// It allocates a store.
pub fn first_cells(alloc: Global, store: &Store, cells: u16) -> Result<Store, AllocError>
    requires { cells ≤ length store.now }
    ensures { IfOk result (λ first. first ≡ take cells store.now) }
{
    let mut first = Store::zero(alloc, cells)?;
    for cell in 0..cells {
        first.put(cell, store.get(cell))?;
    }
    Ok(first)
}

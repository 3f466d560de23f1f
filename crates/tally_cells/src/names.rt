//! Names: accumulating arrays, and the names of their rows.
ghost use Rattle.std.specs.Prelude.{◌≡◌, ◌++◌, IfOk};
ghost use Rattle.spread_laws.specs.Adds.{is_sum};
ghost use Rattle.spread_laws.specs.Rows.{rows_name, cell_name};

use array_tree::Name;
use std::alloc::{AllocError, Global};

/// Whether an array is accumulating: its name ends in `_sum`.
pub(crate) fn is_sum(name: &Name) -> bool
    ensures { result ≡ is_sum name.now }
{
    name.as_bytes().ends_with(b"_sum")
}

/// The name of the rows of an array.
pub(crate) fn rows_name(alloc: Global, name: &Name) -> Result<Name, AllocError>
    ensures { IfOk result (λ rows. rows ≡ rows_name name.now) }
{
    longer_name(alloc, name, b"_rows")
}

/// The name of the variable that goes through the cells of an array's rows.
pub(crate) fn cell_name(alloc: Global, name: &Name) -> Result<Name, AllocError>
    ensures { IfOk result (λ cell. cell ≡ cell_name name.now) }
{
    longer_name(alloc, name, b"_cell")
}

// A name followed by an ending.
fn longer_name(alloc: Global, name: &Name, ending: &[u8]) -> Result<Name, AllocError>
    ensures { IfOk result (λ longer. longer ≡ name.now ++ ending.now) }
{
    let mut bytes = name.as_bytes().to_vec(alloc)?;
    bytes.extend_from_slice(ending)?;
    Name::new(alloc, &bytes)
}

//! The check of a program.
ghost use Rattle.std.specs.Prelude.{OnOk, IfErr};
ghost use Rattle.array_tree.specs.Trees.{program_of};
ghost use Rattle.phase_order.specs.Crossings.{HasNoCrossings};
ghost use Rattle.pipe_walk.specs.FirstCrossing.{IsFaultOf};

use crate::fault::PipeFault;
use crate::seek::Crossings;
use crate::table::Table;
use array_eval::{Layout, Scope};
use disjoint_check::Accepted;
use site_walk::seek_block;
use std::alloc::Global;

/// Checks whether the members of each `team` of a program may go on without waiting for one another: at no site do two pieces
/// cross.
///
/// # Errors
///
/// The line of the first site at which two pieces cross, and the least cell on which they do. `PipeFault::Memory` if an
/// allocation fails, at any time.
///
/// # Memory
///
/// It allocates the walk's tables.
pub fn pipe_check(alloc: Global, accepted: &Accepted) -> Result<(), PipeFault>
    ensures ok { OnOk result (HasNoCrossings (program_of accepted.now.program)) }
    ensures fault { IfErr result (IsFaultOf (program_of accepted.now.program)) }
{
    let program = accepted.program();
    let Ok(layout) = Layout::new(alloc, &program.arrays) else {
        return Err(PipeFault::Memory);
    };
    let Ok(table) = Table::new(alloc, &layout) else {
        return Err(PipeFault::Memory);
    };
    let mut search = Crossings {
        alloc,
        table,
        found: None,
    };
    seek_block(&mut search, &layout, &program.body, &Scope::Outermost);
    match search.found {
        Some(fault) => Err(fault),
        None => Ok(()),
    }
}

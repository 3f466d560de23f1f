//! The walk through a program.
ghost use Rattle.std.specs.Prelude.{◌≡◌, ◌⊎◌, IfOk, IfErr, OnOk, IsTrue, Some, None};
ghost use Rattle.array_tree.specs.Trees.{declarations_of, program_of};
ghost use Rattle.array_meaning.specs.Stores.{arrays_of, AreSized};
ghost use Rattle.array_meaning.specs.Names.{has_only_known_names};
ghost use Rattle.array_meaning.specs.Accepted.{has_indices_inside, HasApartSites};
ghost use Rattle.site_walk.specs.Outside.{out_of_range_of};
ghost use Rattle.site_walk.specs.FirstOverlap.{walk_fault_of};

use crate::fault::WalkFault;
use crate::inside::keep_body;
use crate::overlap::Overlaps;
use crate::sites::seek_block;
use crate::table::Table;
use array_eval::{Layout, Scope};
use array_tree::Program;
use std::alloc::Global;

/// Walks through a program: each static index must be inside its array, and the pieces of each site must not overlap.
///
/// It walks the indices of the whole program first. Then it walks each construct once, before the sites inside it, so site
/// numbers need no second pass.
///
/// Each array must have a cell, and all arrays together at most 4,096. If the walk finds nothing and no name is unknown, the
/// pieces of each site are apart: an unknown array would have a cell after the last.
///
/// # Errors
///
/// The first index outside its array, over the whole program, or else the first overlap. `WalkFault::Memory` if an allocation
/// fails, at any time.
///
/// # Memory
///
/// It allocates a table with an entry for each cell.
#[tactic(auto, using(crate::proofs::ApartLemmas::sites_of_none))]
pub fn walk_program(alloc: Global, program: &Program) -> Result<(), WalkFault>
    requires { AreSized (arrays_of (declarations_of program.now.arrays)) }
    ensures ok { OnOk result (walk_fault_of (program_of program.now) ≡ None) }
    ensures indices { OnOk result (IsTrue (has_indices_inside (program_of program.now))) }
    ensures apart { OnOk result (IsTrue (has_only_known_names (program_of program.now))
        → HasApartSites (program_of program.now)) }

    ensures fault { IfErr result
        (λ fault. (fault ≡ WalkFault.Memory)
        ⊎ (walk_fault_of (program_of program.now) ≡ Some fault)) }
{
    let layout = layout_of(alloc, program)?;
    indices_in(alloc, &layout, program)?;
    let Ok(table) = Table::new(alloc, &layout) else {
        return Err(WalkFault::Memory);
    };
    let mut search = Overlaps {
        alloc,
        table,
        found: None,
    };
    seek_block(&mut search, &layout, &program.body, &Scope::Outermost);
    match search.found {
        Some(fault) => Err(fault),
        None => Ok(()),
    }
}

/// Checks each static index of a program: it must be inside its array.
///
/// Each array must have a cell, and all arrays together at most 4,096.
///
/// # Errors
///
/// The first index outside its array. `WalkFault::Memory` if an allocation fails, at any time.
///
/// # Memory
///
/// It allocates the layout of the arrays.
pub fn walk_indices(alloc: Global, program: &Program) -> Result<(), WalkFault>
    requires { AreSized (arrays_of (declarations_of program.now.arrays)) }
    ensures ok { OnOk result (out_of_range_of (program_of program.now) ≡ None) }
    ensures indices { OnOk result (IsTrue (has_indices_inside (program_of program.now))) }
    ensures fault { IfErr result
        (λ fault. (fault ≡ WalkFault.Memory)
        ⊎ (out_of_range_of (program_of program.now) ≡ Some fault)) }
{
    let layout = layout_of(alloc, program)?;
    indices_in(alloc, &layout, program)
}

// The layout of the program's arrays.
fn layout_of(alloc: Global, program: &Program) -> Result<Layout<'_>, WalkFault>
    requires { AreSized (arrays_of (declarations_of program.now.arrays)) }
    ensures layout { IfOk result (λ layout. layout ≡ arrays_of (declarations_of program.now.arrays)) }
    ensures memory { IfErr result (λ fault. fault ≡ WalkFault.Memory) }
{
    match Layout::new(alloc, &program.arrays) {
        Ok(layout) => Ok(layout),
        Err(_) => Err(WalkFault::Memory),
    }
}

// The same, with the layout given.
fn indices_in(alloc: Global, layout: &Layout, program: &Program) -> Result<(), WalkFault>
    requires layout { layout.now ≡ arrays_of (declarations_of program.now.arrays) }
    requires sized { AreSized layout.now }
    ensures ok { OnOk result (out_of_range_of (program_of program.now) ≡ None) }
    ensures indices { OnOk result (IsTrue (has_indices_inside (program_of program.now))) }
    ensures fault { IfErr result
        (λ fault. out_of_range_of (program_of program.now) ≡ Some fault) }
{
    let mut found = None;
    keep_body(alloc, layout, &program.body, &mut found);
    match found {
        Some(fault) => Err(fault),
        None => Ok(()),
    }
}

//! The conditions on names, ranges and size.
ghost use Rattle.std.specs.Prelude.{◌≡◌, ◌≤◌};
ghost use Rattle.array_tree.specs.Trees.{program_of};
ghost use Rattle.disjoint_check.specs.LimitFault.{limit_fault_of};

use crate::depth::depth_of_block;
use crate::fault::CheckFault;
use crate::names::{duplicate_name, unknown_name};
use crate::ranges::range_fault;
use crate::units::units_of_block;
use array_tree::Program;
use site_counts::{pieces_in_block, sites_in_block};
use transfer_table::has_too_many_sites;

/// The greatest depth to which constructs nest.
const MOST_LEVELS: u32 = 3;

/// The greatest number of units of work.
const MOST_UNITS: u64 = 1_048_576;

/// The greatest number of pieces.
const MOST_PIECES: u64 = 16_384;

/// The first of the conditions on names, ranges and size that fails on `harts` harts. It takes time in proportion to the
/// program's text; each name is also searched among all arrays and the loops around.
pub(crate) fn limit_fault(program: &Program, harts: u8) -> Option<CheckFault>
    requires some_hart { 1 ≤ harts }
    requires few_harts { harts ≤ 16 }
    ensures { result ≡ limit_fault_of (program_of program.now) harts }
{
    if let Some(line) = duplicate_name(program) {
        return Some(CheckFault::DuplicateName { line });
    }
    if let Some(line) = unknown_name(program) {
        return Some(CheckFault::UnknownName { line });
    }
    if let Some(fault) = range_fault(program) {
        return Some(fault);
    }
    let level = depth_of_block(&program.body);
    if level > MOST_LEVELS {
        return Some(CheckFault::TooDeep { level });
    }
    let units = units_of_block(&program.body);
    if units > MOST_UNITS {
        return Some(CheckFault::TooMuchWork { units });
    }
    let sites = sites_in_block(&program.body);
    if has_too_many_sites(harts, sites) {
        return Some(CheckFault::TooManySites { sites });
    }
    let pieces = pieces_in_block(&program.body);
    if pieces > MOST_PIECES {
        return Some(CheckFault::TooManyPieces { pieces });
    }
    None
}

//! A hart that has no deque for a site: its hart-local state is of a run of a program without sites.
ghost use Rattle.std.specs.Prelude.{◌≡◌, map, vec_len};
ghost use Rattle.claim_words.specs.Seats.{AreAll, identity};

use crate::finding::is_taken;
use array_tree::Program;
use deque_rows::rows;
use disjoint_check::check;
use hart_loop::{HartSites, TeamMode};
use hart_work::Sites;
use job_machines::JobMachines;
use loop_team::ClaimSeat;
use once_cell::race::OnceBox;
use sample_programs::{TWO_BRANCHES, parsed};
use shared_sites::{Claims, HartLocal, SharedSite, SiteCell, cells, hart_locals_of, site_cells};
use std::alloc::Global;
use std::sync::Wait;
use std::test::Fail;

// A program without sites. A hart of its run has no deque for site 1.
const NO_SITES: &[u8] = b"array a[1]; a[0] = 1;";

// The hart-local state of the guest in a run of two harts. The home's is last in the list.
fn guest_of<'x>(
    alloc: Global,
    claims: &'x Claims,
    seats: Vec<ClaimSeat>,
) -> Result<HartLocal<'x>, Fail>
    requires count { vec_len seats ≡ 2 }
    requires all { AreAll claims.now.table (map identity seats.items) }
{
    let mut both = hart_locals_of(alloc, claims, rows(alloc, 2)?, seats)?;
    let _home = both.pop();
    Ok(both.pop().ok_or("no hart-local state")?)
}

// Whether a hart with this hart-local state finds site 1.
fn finds_first<'x, 'p: 'x, R: Wait>(
    rt: &R,
    alloc: Global,
    cells: &'x [OnceBox<SharedSite<'p>>],
    own: HartLocal<'x>,
) -> Result<bool, Fail> {
    let mut sites = HartSites::new(site_cells(alloc, cells)?, own, TeamMode::Wait);
    Ok(Sites::<R, JobMachines<'p>>::find(&mut sites, rt, 1).is_some())
}

// Whether a guest in a run of the program `run` finds site 1, whose cell has the pool of `program`.
fn guest_finds<R: Wait>(
    rt: &R,
    alloc: Global,
    program: &Program,
    run: &Program,
) -> Result<bool, Fail> {
    let cells = cells(alloc, 1)?;
    let mut home = SiteCell::new(&cells[1]);
    if !is_taken(alloc, &mut home, program)? {
        return Err(Fail::new("the cell is full"));
    }
    let (claims, seats) = Claims::new(alloc, &check(alloc, run, 2)?, 2)?;
    let own = guest_of(alloc, &claims, seats)?;
    finds_first(rt, alloc, &cells, own)
}

#[test]
fn a_site_is_found_only_with_a_deque(rt: HostRuntime) -> Result<(), Fail> {
    let program = parsed(rt.alloc(), TWO_BRANCHES)?;
    let plain = parsed(rt.alloc(), NO_SITES)?;
    assert!(rt; guest_finds(&rt, rt.alloc(), &program, &program)?);
    assert!(rt; !guest_finds(&rt, rt.alloc(), &program, &plain)?);
    Ok(())
}

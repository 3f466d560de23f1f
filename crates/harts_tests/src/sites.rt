//! Sites that one hart opens and another finds.
ghost use Rattle.std.specs.Prelude.{◌≡◌, map, vec_len};
ghost use Rattle.claim_words.specs.Seats.{AreAll, identity};
ghost use Rattle.hart_loop.specs.Openings.{IsOpened};

use array_eval::Overlay;
use array_jobs::{Piece, piece_of};
use array_tree::Program;
use deque_rows::rows;
use disjoint_check::check;
use hart_loop::{HartSite, HartSites, InDirectory, TeamMode};
use hart_work::Sites;
use job_machines::JobMachines;
use loop_team::ClaimSeat;
use once_cell::race::OnceBox;
use sample_programs::{
    BOTH_BRANCHES, BOTH_PHASES, TWO_BRANCHES, TWO_PHASES, first_construct, parsed,
};
use sched_api::Next;
use shared_sites::{Claims, HartLocal, SharedSite, cells, hart_locals_of, site_cells};
use std::alloc::Global;
use std::sync::Wait;
use std::test::Fail;
use step_eval::Nested;

/// The hart-local states of two harts, in their order.
pub fn two_hart_locals<'x>(
    alloc: Global,
    claims: &'x Claims,
    seats: Vec<ClaimSeat>,
) -> Result<(HartLocal<'x>, HartLocal<'x>), Fail>
    requires count { vec_len seats ≡ 2 }
    requires all { AreAll claims.now.table (map identity seats.items) }
{
    let mut hart_local = hart_locals_of(alloc, claims, rows(alloc, 2)?, seats)?;
    match (hart_local.pop(), hart_local.pop()) {
        (Some(first), Some(second)) => Ok((first, second)),
        _ => Err(Fail::new("no hart-local state is left")),
    }
}

// A piece that the site gave a hart, done.
fn next_piece<'a, 'p, R: Wait, S: InDirectory<'p>>(
    rt: &'a R,
    alloc: Global,
    hart: &mut HartSites<'a, 'p, S>,
    site: &mut HartSite<'a, 'p, S>,
) -> Option<Piece<'p>>
    requires opened { IsOpened S.held site.old }
    ensures opened { IsOpened S.held site.new }
    ensures construct { site.new.opened ≡ site.old.opened }
{
    match hart.next(rt, site) {
        Next::Run(job) => piece_of(alloc, job).ok(),
        _ => None,
    }
}

// Whether a home does a piece.
fn does_a_piece<'a, 'p, R: Wait, S: InDirectory<'p>>(
    rt: &'a R,
    alloc: Global,
    home: &mut HartSites<'a, 'p, S>,
    site: &mut HartSite<'a, 'p, S>,
) -> bool
    requires opened { IsOpened S.held site.old }
    ensures opened { IsOpened S.held site.new }
    ensures construct { site.new.opened ≡ site.old.opened }
{
    match next_piece(rt, alloc, home, site) {
        Some(piece) => {
            home.deposit(rt, alloc, site, piece);
            true
        }
        None => false,
    }
}

// The writes of the pool of a `par` of two branches whose home does all of it.
fn by_the_home<'a, 'p, R: Wait, S: InDirectory<'p>>(
    rt: &'a R,
    alloc: Global,
    program: &'p Program,
    cells: &'a [OnceBox<S>],
    hart_local: HartLocal<'a>,
) -> Result<Overlay, Fail> {
    let nested = first_construct(alloc, program)?;
    let mut home = HartSites::new(site_cells(alloc, cells)?, hart_local, TeamMode::Wait);
    let mut site = Sites::<R, JobMachines<'p>>::open(&mut home, alloc, &nested)?;
    home.offer(rt, &site);
    let first = does_a_piece(rt, alloc, &mut home, &mut site);
    let second = does_a_piece(rt, alloc, &mut home, &mut site);
    let third = does_a_piece(rt, alloc, &mut home, &mut site);
    let written = home.take(rt, alloc, site)?;
    if first && second && !third {
        return Ok(written);
    }
    Err(Fail::new("not two pieces"))
}

// Whether these are the writes of both branches of the program.
fn are_both(written: &Overlay) -> bool {
    written.pairs() == BOTH_BRANCHES.as_slice()
}

// Whether a home that does all pieces writes the cells of both branches.
fn writes_both<R: Wait>(rt: &R, alloc: Global, program: &Program) -> Result<bool, Fail> {
    let cells = cells::<SharedSite<'_>>(alloc, 1)?;
    let (claims, seats) = Claims::new(alloc, &check(alloc, program, 2)?, 2)?;
    let (hart_local, _) = two_hart_locals(alloc, &claims, seats)?;
    let written = by_the_home(rt, alloc, program, cells.as_slice(), hart_local)?;
    Ok(are_both(&written))
}

#[test]
fn a_home_does_all_pieces(rt: HostRuntime) -> Result<(), Fail> {
    let alloc = rt.alloc();
    let program = parsed(alloc, TWO_BRANCHES)?;
    assert!(rt; writes_both(&rt, alloc, &program)?);
    Ok(())
}

// Whether a guest does one piece while the home has the other, and then finds nothing.
fn does_one<'a, 'p, R: Wait, S: InDirectory<'p>>(
    rt: &'a R,
    alloc: Global,
    guest: &mut HartSites<'a, 'p, S>,
    found: &mut HartSite<'a, 'p, S>,
) -> bool
    requires opened { IsOpened S.held found.old }
{
    let Some(piece) = next_piece(rt, alloc, guest, found) else {
        return false;
    };
    guest.deposit(rt, alloc, found, piece);
    matches!(guest.next(rt, found), Next::Nothing)
}

// The same for a guest that finds the site by its views of the cells.
fn helps<'a, 'p, R: Wait, S: InDirectory<'p>>(
    rt: &'a R,
    alloc: Global,
    guest: &mut HartSites<'a, 'p, S>,
) -> bool {
    match guest.find(rt, 1) {
        Some(mut found) => does_one(rt, alloc, guest, &mut found),
        None => false,
    }
}

// Whether a home does a piece while a guest does the other, and then finds nothing.
fn is_helped<'a, 'p, R: Wait, S: InDirectory<'p>>(
    rt: &'a R,
    alloc: Global,
    home: &mut HartSites<'a, 'p, S>,
    site: &mut HartSite<'a, 'p, S>,
    guest: &mut HartSites<'a, 'p, S>,
) -> bool
    requires opened { IsOpened S.held site.old }
    ensures opened { IsOpened S.held site.new }
    ensures construct { site.new.opened ≡ site.old.opened }
{
    let Some(piece) = next_piece(rt, alloc, home, site) else {
        return false;
    };
    let helped = helps(rt, alloc, guest);
    home.deposit(rt, alloc, site, piece);
    let is_done = matches!(home.next(rt, site), Next::Nothing);
    helped && is_done
}

// The writes of the pool of a `par` of two branches, of which a guest does the second.
fn with_a_guest<'a, 'p, R: Wait, S: InDirectory<'p>>(
    rt: &'a R,
    alloc: Global,
    nested: &Nested<'p>,
    home: &mut HartSites<'a, 'p, S>,
    guest: &mut HartSites<'a, 'p, S>,
) -> Result<Overlay, Fail> {
    let mut site = Sites::<R, JobMachines<'p>>::open(home, alloc, nested)?;
    home.offer(rt, &site);
    let helped = is_helped(rt, alloc, home, &mut site, guest);
    let written = home.take(rt, alloc, site)?;
    if helped {
        return Ok(written);
    }
    Err(Fail::new("the guest had another part"))
}

// The same with harts that are made for it.
fn by_two<'a, 'p, R: Wait, S: InDirectory<'p>>(
    rt: &'a R,
    alloc: Global,
    nested: &Nested<'p>,
    cells: &'a [OnceBox<S>],
    hart_local: (HartLocal<'a>, HartLocal<'a>),
) -> Result<Overlay, Fail> {
    let (first, second) = hart_local;
    let mut home = HartSites::new(site_cells(alloc, cells)?, first, TeamMode::Wait);
    let mut guest = HartSites::new(site_cells(alloc, cells)?, second, TeamMode::Wait);
    with_a_guest(rt, alloc, nested, &mut home, &mut guest)
}

// Whether both branches are written if a guest does one.
fn shares_both<R: Wait>(rt: &R, alloc: Global, program: &Program) -> Result<bool, Fail> {
    let cells = cells::<SharedSite<'_>>(alloc, 1)?;
    let (claims, seats) = Claims::new(alloc, &check(alloc, program, 2)?, 2)?;
    let hart_local = two_hart_locals(alloc, &claims, seats)?;
    let nested = first_construct(alloc, program)?;
    let written = by_two(rt, alloc, &nested, cells.as_slice(), hart_local)?;
    Ok(are_both(&written))
}

#[test]
fn a_guest_runs_one_piece_and_then_finds_nothing(rt: HostRuntime) -> Result<(), Fail> {
    let alloc = rt.alloc();
    let program = parsed(alloc, TWO_BRANCHES)?;
    assert!(rt; shares_both(&rt, alloc, &program)?);
    Ok(())
}

// What a home takes from a site of which no piece is done, and the number of harts for which it had work.
fn untouched<'a, 'p, R: Wait, S: InDirectory<'p>>(
    rt: &'a R,
    alloc: Global,
    program: &'p Program,
    cells: &'a [OnceBox<S>],
    hart_local: HartLocal<'a>,
    team_mode: TeamMode,
) -> Result<(Overlay, u8), Fail> {
    let nested = first_construct(alloc, program)?;
    let mut home = HartSites::new(site_cells(alloc, cells)?, hart_local, team_mode);
    let site = Sites::<R, JobMachines<'p>>::open(&mut home, alloc, &nested)?;
    let wishes = Sites::<R, JobMachines<'p>>::wishes(&home, &site);
    Ok((home.take(rt, alloc, site)?, wishes))
}

// Whether a home takes this from an untouched site that no other hart knows, and had work for so many harts.
fn takes<R: Wait>(
    rt: &R,
    alloc: Global,
    program: &Program,
    team_mode: TeamMode,
    expected: &[(u16, i64)],
    harts: u8,
) -> Result<bool, Fail> {
    let cells = cells::<SharedSite<'_>>(alloc, 1)?;
    let (claims, seats) = Claims::new(alloc, &check(alloc, program, 2)?, 2)?;
    let (hart_local, _) = two_hart_locals(alloc, &claims, seats)?;
    let (written, wishes) = untouched(rt, alloc, program, cells.as_slice(), hart_local, team_mode)?;
    Ok(wishes == harts && written.pairs() == expected)
}

#[test]
fn a_construct_whose_pieces_are_not_there_is_computed(rt: HostRuntime) -> Result<(), Fail> {
    let alloc = rt.alloc();
    let program = parsed(alloc, TWO_BRANCHES)?;
    assert!(rt;
        takes(
            &rt,
            alloc,
            &program,
            TeamMode::Wait,
            BOTH_BRANCHES.as_slice(),
            1
        )?
    );
    let program = parsed(alloc, TWO_PHASES)?;
    assert!(rt;
        takes(
            &rt,
            alloc,
            &program,
            TeamMode::Wait,
            BOTH_PHASES.as_slice(),
            2
        )?
    );
    Ok(())
}

#[test]
fn a_team_whose_pieces_cross_is_computed_by_its_home(rt: HostRuntime) -> Result<(), Fail> {
    let alloc = rt.alloc();
    let program = parsed(alloc, TWO_PHASES)?;
    assert!(rt;
        takes(
            &rt,
            alloc,
            &program,
            TeamMode::Overtake,
            BOTH_PHASES.as_slice(),
            0
        )?
    );
    Ok(())
}

// Whether the second of two homes with the same cell requests no hart, and computes its construct.
fn requests_no_hart<R: Wait>(rt: &R, alloc: Global, program: &Program) -> Result<bool, Fail> {
    let cells = cells::<SharedSite<'_>>(alloc, 1)?;
    let (claims, seats) = Claims::new(alloc, &check(alloc, program, 2)?, 2)?;
    let (first, second) = two_hart_locals(alloc, &claims, seats)?;
    let slice = cells.as_slice();
    let (_, one) = untouched(rt, alloc, program, slice, first, TeamMode::Wait)?;
    let (written, none) = untouched(rt, alloc, program, slice, second, TeamMode::Wait)?;
    Ok(one == 1 && none == 0 && are_both(&written))
}

#[test]
fn a_hart_whose_cell_is_taken_requests_no_hart(rt: HostRuntime) -> Result<(), Fail> {
    let alloc = rt.alloc();
    let program = parsed(alloc, TWO_BRANCHES)?;
    assert!(rt; requests_no_hart(&rt, alloc, &program)?);
    Ok(())
}

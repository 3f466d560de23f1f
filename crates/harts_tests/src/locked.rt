//! Harts that move by ports on one ledger under a lock.
ghost use Rattle.std.specs.Prelude.{◌≡◌, ◌≤◌, ◌<◌, All, IfOk, length, map, vec_len};
ghost use Rattle.transfer_table.specs.Plan.{IsHart};
ghost use Rattle.claim_words.specs.Seats.{AreAll, identity};
ghost use Rattle.hart_loop.specs.Harts.{StartsIn};

use crate::sites::two_hart_locals;
use array_eval::Overlay;
use array_jobs::{Job, Piece, body_job};
use array_tree::Program;
use base_sched::{Base, SharedBase};
use deque_rows::rows;
use disjoint_check::{Accepted, check};
use hart_loop::{Hart, HartSite, HartSites, TeamMode, work};
use hart_port::{Ledger, LockedPort};
use hart_work::{Run, Sites, run_construct};
use job_machines::JobMachines;
use loop_team::ClaimSeat;
use once_cell::race::OnceBox;
use sample_programs::{
    BOTH_BRANCHES, BOTH_PHASES, TWO_BRANCHES, TWO_PHASES, first_construct, parsed,
};
use shared_sites::{Claims, HartLocal, SharedSite, SiteCell, cells, hart_locals_of, site_cells};
use site_steps::{SiteTree, WaitingPort};
use std::alloc::Global;
use std::sync::{Mutex, Wait};
use std::test::Fail;
use std::thread;
use std::thread::Threads;
use transfer_table::{Plan, first_fault};

// A port on the ledger that waits.
type OwnPort<'x, R> = WaitingPort<'x, LockedPort<'x, R>, R>;

// A hart with such a port.
type OwnHart<'x, 'p, R> = Hart<'x, 'p, OwnPort<'x, R>, SharedSite<'p>>;

// What all harts of a run have.
#[derive(Drop)]
struct Shared<'x, 'p, R> {
    rt: &'x R,
    alloc: Global,
    lock: &'x Mutex<Ledger>,
    plan: &'x Plan,
    base: &'x SharedBase,
    cells: &'x [OnceBox<SharedSite<'p>>],
}

// A hart in the base, by a port on the ledger.
fn hart<'x, 'p: 'x, R: Threads + Wait + Sync>(
    shared: &Shared<'x, 'p, R>,
    number: u8,
    hart_local: HartLocal<'x>,
    job: Option<Job<'p>>,
) -> Result<OwnHart<'x, 'p, R>, Fail>
    requires hart { IsHart shared.now.plan.now number }
    requires few { shared.now.plan.now.harts ≤ 4 }
    ensures { IfOk result (λ hart. StartsIn shared.now.plan.now hart.port.port.view) }
{
    let port = LockedPort::new(shared.alloc, shared.lock, shared.plan, number)?;
    let views = site_cells(shared.alloc, shared.cells)?;
    Ok(Hart {
        port: WaitingPort::new(port, shared.rt),
        sites: HartSites::new(views, hart_local, TeamMode::Wait),
        base: shared.base,
        job,
        piece: None,
    })
}

// The hart-local state of the first hart that has none yet.
fn next_hart_local<'x>(hart_local: &mut Vec<HartLocal<'x>>) -> Result<HartLocal<'x>, Fail> {
    Ok(hart_local.pop().ok_or("no hart-local state is left")?)
}

// A hart for each of the plan's. The first has the job, and is last in the list.
fn crew<'x, 'p: 'x, R: Threads + Wait + Sync>(
    shared: &Shared<'x, 'p, R>,
    mut hart_local: Vec<HartLocal<'x>>,
    job: Job<'p>,
) -> Result<Vec<OwnHart<'x, 'p, R>>, Fail>
    requires { shared.now.plan.now.harts ≤ 4 }
    ensures { IfOk result (λ harts.
        All (λ hart. StartsIn shared.now.plan.now hart.port.port.view) harts.items) }
{
    let first = next_hart_local(&mut hart_local)?;
    let mut harts = Vec::with_capacity(shared.alloc, usize::from(shared.plan.harts()))?;
    for number in 1..shared.plan.harts() {
        let own = next_hart_local(&mut hart_local)?;
        harts.push(hart(shared, number, own, None)?)?;
    }
    harts.push(hart(shared, 0, first, Some(job))?)?;
    Ok(harts)
}

// Runs each hart on a thread, the last of them on the current one.
fn run_each<'x, 'p: 'x, R: Threads + Wait + Sync, F: Fn(u8, u16, u8, u8) + Sync>(
    rt: &'x R,
    run: Run<'_, R, F>,
    harts: &mut [OwnHart<'x, 'p, R>],
)
    requires callable { F.IsAlwaysCallable run.pass.now }
    requires starts { All (λ hart. StartsIn run.tree.now hart.port.port.view) harts.old }
{
    // Why as many parts as harts: the harts of one part run one after another, and each waits for all others.
    let parts = harts.len().max(1);
    thread::for_each_mut(rt, harts, parts, &|_, hart| work(run, rt, hart));
}

// The piece of the hart that is last in the list.
fn last_piece<'x, 'p: 'x, R: Threads + Wait + Sync>(
    harts: &mut [OwnHart<'x, 'p, R>],
) -> Option<Piece<'p>> {
    harts.last_mut()?.piece.take()
}

// The writes of the program's body, by harts with locked ports.
fn run_body<'x, 'p: 'x, R: Threads + Wait + Sync>(
    shared: &Shared<'x, 'p, R>,
    hart_local: Vec<HartLocal<'x>>,
    job: Job<'p>,
) -> Result<Piece<'p>, Fail>
    requires { shared.now.plan.now.harts ≤ 4 }
{
    let tree = SiteTree::new(shared.alloc, shared.plan)?;
    let mut harts = crew(shared, hart_local, job)?;
    let pass = |_, _, _, _| {};
    let run = Run {
        rt: shared.rt,
        alloc: shared.alloc,
        tree: &tree,
        pass: &pass,
    };
    run_each(shared.rt, run, harts.as_mut_slice());
    Ok(last_piece(harts.as_mut_slice()).ok_or("out of memory")?)
}

// The hart-local states of so many harts.
fn all_hart_locals<'x>(
    alloc: Global,
    claims: &'x Claims,
    seats: Vec<ClaimSeat>,
    harts: u8,
) -> Result<Vec<HartLocal<'x>>, Fail>
    requires harts { (1 ≤ harts) × (harts ≤ 16) }
    requires count { vec_len seats ≡ harts }
    requires all { AreAll claims.now.table (map identity seats.items) }
{
    Ok(hart_locals_of(alloc, claims, rows(alloc, harts)?, seats)?)
}

// Whether the program's body writes these cells.
fn body_writes<'x, 'p: 'x, R: Threads + Wait + Sync>(
    shared: &Shared<'x, 'p, R>,
    accepted: &Accepted<'p>,
    claims: &'x Claims,
    seats: Vec<ClaimSeat>,
    harts: u8,
    written: &[(u16, i64)],
) -> Result<bool, Fail>
    requires harts { (1 ≤ harts) × (harts ≤ 4) }
    requires few { shared.now.plan.now.harts ≤ 4 }
    requires count { vec_len seats ≡ harts }
    requires all { AreAll claims.now.table (map identity seats.items) }
{
    let hart_local = all_hart_locals(shared.alloc, claims, seats, harts)?;
    let job = body_job(shared.alloc, accepted.program())?;
    let piece = run_body(shared, hart_local, job)?;
    Ok(piece.written.pairs() == written)
}

// Whether harts that share this ledger write these cells.
fn harts_write<R: Threads + Wait + Sync>(
    rt: &R,
    alloc: Global,
    accepted: &Accepted<'_>,
    lock: &Mutex<Ledger>,
    harts: u8,
    written: &[(u16, i64)],
) -> Result<bool, Fail>
    requires harts { (1 ≤ harts) × (harts ≤ 4) }
    requires few { accepted.now.plan.harts ≤ 4 }
{
    let base = SharedBase::new(Base::new(alloc, accepted.plan().sites())?);
    let cells = cells(alloc, accepted.plan().sites())?;
    let (claims, seats) = Claims::new(alloc, accepted, harts)?;
    let shared = Shared {
        rt,
        alloc,
        lock,
        plan: accepted.plan(),
        base: &base,
        cells: &cells,
    };
    body_writes(&shared, accepted, &claims, seats, harts, written)
}

// Whether the ledger is a complete journal of the plan.
fn is_complete(alloc: Global, plan: &Plan, ledger: Ledger) -> Result<bool, Fail> {
    let entries = ledger.into_entries();
    if entries.as_slice().len() > 65_535 {
        return Err(Fail::new("more entries than any plan allows"));
    }
    let all = vec![in alloc; true; plan.sites() as usize]?;
    Ok(first_fault(alloc, plan, &all, entries.as_slice())?.is_none())
}

// Whether harts with locked ports write these cells, and their ledger is a complete journal.
fn is_right<R: Threads + Wait + Sync>(
    rt: &R,
    alloc: Global,
    program: &Program,
    harts: u8,
    written: &[(u16, i64)],
) -> Result<bool, Fail>
    requires { (1 ≤ harts) × (harts ≤ 4) }
{
    let accepted = check(alloc, program, harts)?;
    let lock = Mutex::new(Ledger::new(alloc, accepted.plan())?);
    let is_same = harts_write(rt, alloc, &accepted, &lock, harts, written)?;
    let is_whole = is_complete(alloc, accepted.plan(), lock.into_inner())?;
    Ok(is_same && is_whole)
}

#[test]
fn harts_move_by_locked_ports(rt: HostRuntime) -> Result<(), Fail> {
    let branches = parsed(rt.alloc(), TWO_BRANCHES)?;
    assert!(rt; is_right(&rt, rt.alloc(), &branches, 1, &BOTH_BRANCHES)?);
    assert!(rt; is_right(&rt, rt.alloc(), &branches, 2, &BOTH_BRANCHES)?);
    let phases = parsed(rt.alloc(), TWO_PHASES)?;
    assert!(rt; is_right(&rt, rt.alloc(), &phases, 2, &BOTH_PHASES)?);
    assert!(rt; is_right(&rt, rt.alloc(), &phases, 4, &BOTH_PHASES)?);
    Ok(())
}

// The first hart runs the complete body, without another hart.
fn run_whole<'x, 'p: 'x, R: Threads + Wait + Sync>(
    shared: &Shared<'x, 'p, R>,
    tree: &SiteTree,
    hart_local: HartLocal<'x>,
    job: Job<'p>,
) -> Result<(), Fail>
    requires some { 0 < shared.now.plan.now.harts }
    requires few { shared.now.plan.now.harts ≤ 4 }
    requires tree { tree.now ≡ shared.now.plan.now }
{
    let mut first = hart(shared, 0, hart_local, Some(job))?;
    let pass = |_, _, _, _| {};
    let run = Run {
        rt: shared.rt,
        alloc: shared.alloc,
        tree,
        pass: &pass,
    };
    work(run, shared.rt, &mut first);
    Ok(())
}

// The second hart's writes of the first construct, which it computes.
fn run_first<'x, 'p: 'x, R: Threads + Wait + Sync>(
    shared: &Shared<'x, 'p, R>,
    tree: &SiteTree,
    hart_local: HartLocal<'x>,
    program: &'p Program,
) -> Result<Overlay, Fail>
    requires second { 1 < shared.now.plan.now.harts }
    requires few { shared.now.plan.now.harts ≤ 4 }
    requires tree { tree.now ≡ shared.now.plan.now }
{
    let nested = first_construct(shared.alloc, program)?;
    let port = LockedPort::new(shared.alloc, shared.lock, shared.plan, 1)?;
    let views = site_cells(shared.alloc, shared.cells)?;
    let mut port = WaitingPort::new(port, shared.rt);
    let mut sites = HartSites::new(views, hart_local, TeamMode::Wait);
    let mut around: HartSite<'x, 'p, SharedSite<'p>> = HartSite::base(shared.base);
    let pass = |_: u8, _: &Job| {};
    let run = Run {
        rt: shared.rt,
        alloc: shared.alloc,
        tree,
        pass: &pass,
    };
    Ok(run_construct(run, &mut port, shared.rt, &mut sites, &mut around, nested)?)
}

// Whether a hart that reaches the first construct after its site was registered and unregistered writes both branches,
// although the other hart has run the complete body.
fn writes_late<'x, 'p: 'x, R: Threads + Wait + Sync>(
    shared: &Shared<'x, 'p, R>,
    program: &'p Program,
    accepted: &Accepted<'p>,
    hart_local: (HartLocal<'x>, HartLocal<'x>),
) -> Result<bool, Fail>
    requires second { 1 < shared.now.plan.now.harts }
    requires few { shared.now.plan.now.harts ≤ 4 }
{
    let tree = SiteTree::new(shared.alloc, shared.plan)?;
    let (own, others) = hart_local;
    let job = body_job(shared.alloc, accepted.program())?;
    run_whole(shared, &tree, own, job)?;
    let written = run_first(shared, &tree, others, program)?;
    Ok(written.pairs() == BOTH_BRANCHES.as_slice())
}

// The same with hart-local states of a run of two harts.
fn is_computed<R: Threads + Wait + Sync>(
    rt: &R,
    alloc: Global,
    program: &Program,
    accepted: &Accepted<'_>,
    lock: &Mutex<Ledger>,
) -> Result<bool, Fail>
    requires { accepted.now.plan.harts ≡ 2 }
{
    let base = SharedBase::new(Base::new(alloc, accepted.plan().sites())?);
    let cells = cells(alloc, accepted.plan().sites())?;
    let (claims, seats) = Claims::new(alloc, accepted, 2)?;
    let hart_local = two_hart_locals(alloc, &claims, seats)?;
    let shared = Shared {
        rt,
        alloc,
        lock,
        plan: accepted.plan(),
        base: &base,
        cells: &cells,
    };
    writes_late(&shared, program, accepted, hart_local)
}

#[test]
fn a_construct_whose_site_is_gone_is_computed(rt: HostRuntime) -> Result<(), Fail> {
    let program = parsed(rt.alloc(), TWO_BRANCHES)?;
    let accepted = check(rt.alloc(), &program, 2)?;
    let lock = Mutex::new(Ledger::new(rt.alloc(), accepted.plan())?);
    assert!(rt; is_computed(&rt, rt.alloc(), &program, &accepted, &lock)?);
    Ok(())
}

// The home opens the first construct by these views of the cells.
fn open_first<'x, 'p: 'x, R: Wait>(
    _rt: &'x R,
    alloc: Global,
    program: &'p Program,
    site_cells: Vec<SiteCell<'x, SharedSite<'p>>>,
    hart_local: HartLocal<'x>,
) -> Result<(), Fail> {
    let nested = first_construct(alloc, program)?;
    let mut home = HartSites::new(site_cells, hart_local, TeamMode::Wait);
    let _opened = Sites::<R, JobMachines<'p>>::open(&mut home, alloc, &nested)?;
    Ok(())
}

// Whether the second hart finds site 2 by the scheduler in its cell.
fn finds_second<'x, 'p: 'x, R: Wait>(
    rt: &'x R,
    alloc: Global,
    cells: &'x [OnceBox<SharedSite<'p>>],
    hart_local: HartLocal<'x>,
) -> Result<bool, Fail> {
    let mut sites = HartSites::new(site_cells(alloc, cells)?, hart_local, TeamMode::Wait);
    Ok(Sites::<R, JobMachines<'p>>::find(&mut sites, rt, 2).is_some())
}

// Whether a hart finds site 2 if its cell has the pool of site 1.
fn is_found_by_another<'x, 'p: 'x, R: Wait>(
    rt: &'x R,
    alloc: Global,
    program: &'p Program,
    cells: &'x [OnceBox<SharedSite<'p>>],
    hart_local: (HartLocal<'x>, HartLocal<'x>),
) -> Result<bool, Fail>
    requires { length cells.now ≡ 3 }
{
    let (own, others) = hart_local;
    let mut turned = site_cells(alloc, cells)?;
    turned.swap(1, 2);
    open_first(rt, alloc, program, turned, own)?;
    finds_second(rt, alloc, cells, others)
}

// The same with hart-local states of a run of two harts.
fn is_found<R: Wait>(rt: &R, alloc: Global, program: &Program) -> Result<bool, Fail> {
    let cells = cells(alloc, 2)?;
    let (claims, seats) = Claims::new(alloc, &check(alloc, program, 2)?, 2)?;
    let hart_local = two_hart_locals(alloc, &claims, seats)?;
    is_found_by_another(rt, alloc, program, &cells, hart_local)
}

#[test]
fn a_site_is_not_found_by_the_pool_of_another(rt: HostRuntime) -> Result<(), Fail> {
    let program = parsed(rt.alloc(), TWO_BRANCHES)?;
    assert!(rt; !is_found(&rt, rt.alloc(), &program)?);
    Ok(())
}

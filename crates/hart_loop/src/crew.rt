//! A crew: harts that each run on a thread, by any port that can wait and is `Send`.
ghost use Rattle.std.specs.Prelude.{◌≡◌, ◌<◌, IfOk, IfSome, length, map, vec_len};
ghost use Rattle.array_tree.specs.Trees.{program_of};
ghost use Rattle.array_jobs.specs.Jobs.{job_of};
ghost use Rattle.array_jobs.specs.Bodies.{body_of};
ghost use Rattle.deque_rows.specs.Rows.{identity as rows_identity};
ghost use Rattle.claim_words.specs.Seats.{identity as seat_identity};
ghost use Rattle.shared_sites.specs.HartLocals.{AreHartLocals};
ghost use Rattle.hart_loop.specs.Harts.{AllStart, AreSame, HaveRun, AreTheSame};

use crate::hart::{Hart, work};
use crate::harts::HartSites;
use crate::team_mode::TeamMode;
use array_jobs::{Job, Piece, body_job};
use base_sched::{Base, SharedBase};
use deque_rows::laws::settle;
use deque_rows::{HartRows, ROOM, rows_for};
use disjoint_check::Accepted;
use hart_work::Run;
use loop_team::ClaimSeat;
use loop_team::laws::claimed;
use once_cell::race::OnceBox;
use shared_sites::{Claims, SharedSite, cells, hart_locals_of, site_cells};
use site_steps::PatientPort;
use std::alloc::{AllocError, Global};
use std::sync::Wait;
use std::thread;
use std::thread::Threads;

/// Runs an accepted program on harts that move by these ports, one for each hart of the plan, and settles the accounts of what
/// the harts were lent. Blocks until all harts are back.
///
/// `team_mode` chooses whether the members of each `team` wait for one another. The result is the piece of the program's body,
/// and each port comes back as the same hart's.
///
/// # Errors
///
/// `AllocError` if any allocation fails.
///
/// # Memory
///
/// It allocates the schedulers of each site, the machines and the overlays.
pub fn run_ports<
    'p,
    R: Threads + Wait + Sync,
    F: Fn(u8, u16, u8, u8) + Sync,
    P: PatientPort<Hold = ()> + Send + Drop,
>(
    run: Run<'_, R, F>,
    accepted: &Accepted<'p>,
    team_mode: TeamMode,
    ports: Vec<P>,
) -> Result<(Piece<'p>, Vec<P>), AllocError>
    requires callable { F.IsAlwaysCallable run.pass.now }
    requires count { vec_len ports ≡ accepted.now.plan.harts }
    requires starts { AllStart P.seen run.tree.now ports.items }
    ensures piece { IfOk result
        (λ back. job_of back.0.job ≡ body_of (program_of accepted.now.program)) }
    ensures same { IfOk result (λ back. AreSame P.seen ports.items back.1.items) }
{
    let (claims, crew_parts) = lend(run.alloc, accepted, ports)?;
    let sites = run.tree.plan().sites();
    let base = SharedBase::new(Base::new(run.alloc, sites)?);
    let cells = cells(run.alloc, sites)?;
    let job = body_job(run.alloc, accepted.program())?;
    let mut harts = crew(run.alloc, team_mode, &claims, crew_parts, &base, &cells)?;
    let piece = run_all(run, harts.as_mut_slice(), job);
    let crew_parts = crew_parts_of(run.alloc, harts)?;
    let CrewParts { ports, rows, seats } = crew_parts;
    settle_all(claims, rows, seats);
    match piece {
        Some(piece) => Ok((piece, ports)),
        None => Err(AllocError),
    }
}

/// The hart-local states of a run, one for each hart, in their order.
#[derive(Drop)]
struct CrewParts<P> {
    /// Their ports.
    ports: Vec<P>,
    /// Their access to the deques.
    rows: Vec<HartRows>,
    /// Their seats of the claim table.
    seats: Vec<ClaimSeat>,
}

// The hart-local states of a run, for the harts of these ports, and the claim table. Why this room: a deque has room for the job indices of
// all pieces of the program, each of which is pushed at most once, so it allocates no more than it may use.
fn lend<P: Drop>(
    alloc: Global,
    accepted: &Accepted<'_>,
    ports: Vec<P>,
) -> Result<(Claims, CrewParts<P>), AllocError>
    ensures ports { IfOk result (λ t. t.1.ports ≡ ports) }
    ensures rows { IfOk result (λ t. vec_len t.1.rows ≡ accepted.now.plan.harts) }
    ensures seats { IfOk result (λ t. vec_len t.1.seats ≡ accepted.now.plan.harts) }
    ensures hart_local { IfOk result (λ t. AreHartLocals t.0.table t.1.rows.items t.1.seats.items) }
    ensures some { 0 < accepted.now.plan.harts }
{
    let harts = accepted.plan().harts();
    let (claims, seats) = Claims::new(alloc, accepted, harts)?;
    let rows = rows_for(alloc, harts, accepted.pieces().clamp(1, ROOM))?;
    let crew_parts = CrewParts { ports, rows, seats };
    Ok((claims, crew_parts))
}

// Settles the accounts of deques and claims.
fn settle_all(claims: Claims, rows: Vec<HartRows>, seats: Vec<ClaimSeat>)
    requires { AreHartLocals claims.table rows.items seats.items }
{
    settle(rows);
    claimed(claims.into_table(), seats);
}

// A hart for each port, in the base and with no job.
fn crew<'x, 'p: 'x, P: Drop>(
    alloc: Global,
    team_mode: TeamMode,
    claims: &'x Claims,
    crew_parts: CrewParts<P>,
    base: &'x SharedBase,
    cells: &'x [OnceBox<SharedSite<'p>>],
) -> Result<Vec<Hart<'x, 'p, P, SharedSite<'p>>>, AllocError>
    requires rows { vec_len crew_parts.rows ≡ vec_len crew_parts.ports }
    requires seats { vec_len crew_parts.seats ≡ vec_len crew_parts.ports }
    requires hart_local { AreHartLocals claims.now.table crew_parts.rows.items crew_parts.seats.items }
    ensures ports { IfOk result
        (λ harts. map (λ hart. hart.port) harts.items ≡ crew_parts.ports.items) }
    ensures rows { IfOk result
        (λ harts. map (λ hart. hart.sites.hart_local.rows) harts.items
        ≡ map rows_identity crew_parts.rows.items) }
    ensures seats { IfOk result
        (λ harts. map (λ hart. hart.sites.hart_local.seat) harts.items
        ≡ map seat_identity crew_parts.seats.items) }
{
    let CrewParts { ports, rows, seats } = crew_parts;
    let mut hart_local = hart_locals_of(alloc, claims, rows, seats)?;
    let mut harts = Vec::with_capacity(alloc, ports.len())?;
    for port in ports {
        let Some(own) = hart_local.pop() else {
            unreachable!()
        };
        harts.push(Hart {
            port,
            sites: HartSites::new(site_cells(alloc, cells)?, own, team_mode),
            base,
            job: None,
            piece: None,
        })?;
    }
    Ok(harts)
}

// Runs each hart on a thread, the first of them with this job, and blocks until all are back. Returns the job's piece, unless an
// allocation failed.
fn run_all<
    'x,
    'p: 'x,
    R: Threads + Wait + Sync,
    F: Fn(u8, u16, u8, u8) + Sync,
    P: PatientPort<Hold = ()> + Send,
>(
    run: Run<'_, R, F>,
    harts: &mut [Hart<'x, 'p, P, SharedSite<'p>>],
    job: Job<'p>,
) -> Option<Piece<'p>>
    requires callable { F.IsAlwaysCallable run.pass.now }
    requires some { 0 < length harts.old }
    requires starts { AllStart (λ hart. P.seen hart.port) run.tree.now harts.old }
    ensures same { AreTheSame P.seen harts.old harts.new }
    ensures piece { IfSome result (λ piece. piece.job ≡ job.entry) }
{
    harts[0].job = Some(job);
    // Why the first is last in the list: it runs on the current thread. If no thread can be made, the others run after it, and
    // end immediately, since it has shut the base.
    harts.reverse();
    // Why as many parts as harts: the harts of one part run one after another, and each waits for all others.
    let parts = harts.len().max(1);
    thread::for_each_mut(run.rt, harts, parts, &|_, hart| work(run, (), hart));
    harts.reverse();
    harts[0].piece.take()
}

// What the harts give back, in their order.
fn crew_parts_of<'x, 'p: 'x, P: Drop>(
    alloc: Global,
    harts: Vec<Hart<'x, 'p, P, SharedSite<'p>>>,
) -> Result<CrewParts<P>, AllocError>
    ensures ports { IfOk result
        (λ crew_parts. crew_parts.ports.items ≡ map (λ hart. hart.port) harts.entry.items) }
    ensures rows { IfOk result
        (λ crew_parts. map rows_identity crew_parts.rows.items
        ≡ map (λ hart. hart.sites.hart_local.rows) harts.entry.items) }
    ensures seats { IfOk result
        (λ crew_parts. map seat_identity crew_parts.seats.items
        ≡ map (λ hart. hart.sites.hart_local.seat) harts.entry.items) }
{
    let mut crew_parts = CrewParts {
        ports: Vec::with_capacity(alloc, harts.len())?,
        rows: Vec::with_capacity(alloc, harts.len())?,
        seats: Vec::with_capacity(alloc, harts.len())?,
    };
    for hart in harts {
        let (port, hart_local) = hart.into_parts();
        let (rows, seat) = hart_local.into_parts();
        crew_parts.ports.push(port)?;
        crew_parts.rows.push(rows)?;
        crew_parts.seats.push(seat)?;
    }
    Ok(crew_parts)
}

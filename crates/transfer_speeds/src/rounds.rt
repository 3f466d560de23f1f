//! Boards whose sites the harts visit, and the time that it takes.
ghost use Rattle.std.specs.Prelude.{◌≡◌, map, IfOk};
ghost use Rattle.std.specs.List.{All};
ghost use Rattle.board_rule.specs.Layouts.{HasRoom};
ghost use Rattle.lent_board.specs.Of.{IsOf};
ghost use Rattle.board_tests.specs.Roam.{IsNew};
ghost use Rattle.transfer_speeds.specs.Flat.{IsFlat};

use crate::visits::{is_flat, visit_all};
use board_rule::Laid;
use hart_port::Port;
use lent_board::{Board, BoardPort, HartSeat};
use std::alloc::{AllocError, Global};
use std::io;
use std::sync::atomic::{AtomicU64, Ordering};
use std::thread::{Threads, for_each_mut};
use std::time::{Clock, Instant};
use transfer_table::{Plan, PlanFault};

/// The number of boards.
const ROUNDS: usize = 150;

/// The number of sites of each board.
const SITES: usize = 4092;

/// The time of a transfer, in nanoseconds.
#[derive(Drop)]
pub struct Times {
    pub best: u64,
    pub median: u64,
}

/// The times of a transfer for `harts` harts that share a board: the best and the median of all rounds.
///
/// # Errors
///
/// An error if the plan isn't made, an allocation fails, or a board can't be made.
///
/// # Memory
///
/// It allocates the plan, the times, and a new board for each round.
pub fn rounds<L: Laid + Sync, R: Threads + Clock + Sync>(
    rt: &R,
    alloc: Global,
    harts: u8,
) -> io::Result<Times>
    requires few_harts { HasRoom L.layout harts }
{
    let plan = plan_of(alloc, harts)?;
    let mut times = Vec::with_capacity(alloc, ROUNDS)?;
    for _ in 0..ROUNDS {
        times.push(round::<L, R>(rt, alloc, &plan)?)?;
    }
    times.sort_unstable();
    let best = times.first().copied().unwrap_or(0);
    let median = times.get(ROUNDS / 2).copied().unwrap_or(0);
    Ok(Times { best, median })
}

// A plan for `harts` harts, whose sites all lie under the base.
fn plan_of(alloc: Global, harts: u8) -> io::Result<Plan>
    ensures harts { IfOk result (λ plan. plan.harts ≡ harts) }
    ensures flat { IfOk result IsFlat }
{
    match Plan::new(alloc, harts, &[0; SITES]) {
        Ok(plan) if is_flat(&plan) => Ok(plan),
        Ok(_) => Err(io::Error::from(io::ErrorKind::InvalidInput)),
        Err(PlanFault::Memory) => Err(io::Error::from(AllocError)),
        Err(_) => Err(io::Error::from(io::ErrorKind::InvalidInput)),
    }
}

// A port for each seat.
fn ports_of<'a, L: Laid>(
    alloc: Global,
    board: &'a Board<L>,
    seats: Vec<HartSeat>,
) -> Result<Vec<BoardPort<'a, L>>, AllocError>
    requires of { All (IsOf board.now) seats.items }
    ensures { IfOk result (λ ports. map (λ port. port.seat) ports.items ≡ seats.items) }
{
    let mut ports = Vec::with_capacity(alloc, seats.len())?;
    for seat in seats {
        ports.push(BoardPort::new(board, seat))?;
    }
    Ok(ports)
}

// The time of a transfer of the slowest hart on a new board, in nanoseconds.
fn round<L: Laid + Sync, R: Threads + Clock + Sync>(
    rt: &R,
    alloc: Global,
    plan: &Plan,
) -> io::Result<u64>
    requires few_harts { HasRoom L.layout plan.now.harts }
    requires flat { IsFlat plan.now }
{
    let (board, seats) = Board::<L>::new(alloc, plan)?;
    let mut ports = ports_of(alloc, &board, seats)?;
    let mut times = Vec::with_capacity(alloc, ports.len())?;
    for _ in 0..ports.len() {
        times.push(AtomicU64::new(0))?;
    }
    visit_at_once(rt, plan, ports.as_mut_slice(), times.as_slice());
    let slowest = times.iter().map(|time| time.load(Ordering::SeqCst)).max();
    let transfers = 2 * SITES as u64;
    Ok(slowest.unwrap_or(0) / transfers)
}

// All harts visit their sites at once, each in a thread. The time of each goes to its index.
fn visit_at_once<R: Threads + Clock + Sync, P: Port<Hold = ()> + Send>(
    rt: &R,
    plan: &Plan,
    ports: &mut [P],
    times: &[AtomicU64],
)
    requires flat { IsFlat plan.now }
    requires new { All (λ port. IsNew plan.now (P.seen port)) ports.old }
{
    let go = |hart: usize, port: &mut P|
        requires flat { IsFlat plan.now }
        requires new { IsNew plan.now (P.seen port.old) }
    {
        let time = time_of(rt, plan, port, hart);
        if let Some(slot) = times.get(hart) {
            slot.store(time, Ordering::SeqCst);
        }
    };
    let parts = ports.len().max(1);
    for_each_mut(rt, ports, parts, &go);
}

// The time that the hart takes for its share of the sites, in nanoseconds; 0 if the clock can't be read.
fn time_of<P: Port<Hold = ()>>(clock: &impl Clock, plan: &Plan, port: &mut P, hart: usize) -> u64
    requires flat { IsFlat plan.now }
    requires new { IsNew plan.now (P.seen port.old) }
{
    let sites = plan.sites();
    let share = sites / u16::from(plan.harts().max(1));
    let first = u16::try_from(hart).unwrap_or(0).saturating_mul(share);
    let last = first.saturating_add(share).min(sites);
    let Ok(start) = Instant::now(clock) else {
        return 0;
    };
    visit_all(port, (), first, last);
    match start.elapsed(clock) {
        Ok(time) => u64::try_from(time.as_nanos()).unwrap_or(0),
        Err(_) => 0,
    }
}

//! One run of a crew, by the ports of a board of either layout, or by the port of a single hart.
ghost use Rattle.std.specs.Prelude.{◌≡◌, ◌≤◌, All, IfOk, length, map};
ghost use Rattle.array_tree.specs.Trees.{program_of};
ghost use Rattle.array_meaning.specs.Work.{final_store};
ghost use Rattle.transfer_table.specs.Plan.{most_entries};
ghost use Rattle.board_rule.specs.Layouts.{HasRoom};
ghost use Rattle.lent_board.specs.Of.{IsOf};

use crate::crew::run_ports;
use crate::outcome::store_after;
use crate::team_mode::TeamMode;
use array_eval::Store;
use board_rule::Laid;
use disjoint_check::Accepted;
use hart_port::PlainPort;
use hart_work::Run;
use lent_board::{Board, BoardPort, Closed, HartSeat};
use site_steps::WaitingPort;
use std::alloc::{AllocError, Global};
use std::sync::Wait;
use std::thread::Threads;
use transfer_table::Entries;

/// Runs an accepted program once on the harts of its plan, which move on a board of their own. Returns the final store and the
/// journal of the board.
///
/// # Errors
///
/// `AllocError` if an allocation fails.
///
/// # Memory
///
/// It allocates the board, its journal, and as `run_ports` does.
pub fn on_board<L: Laid + Sync, R: Threads + Wait + Sync, F: Fn(u8, u16, u8, u8) + Sync>(
    run: Run<'_, R, F>,
    accepted: &Accepted<'_>,
    team_mode: TeamMode,
) -> Result<(Store, Closed<L>), AllocError>
    requires callable { F.IsAlwaysCallable run.pass.now }
    requires few_harts { HasRoom L.layout accepted.now.plan.harts }
    requires tree { run.tree.now ≡ accepted.now.plan }
    ensures store { IfOk result (λ r. r.0 ≡ final_store (program_of accepted.now.program)) }
    ensures short { IfOk result (λ r. length r.1 ≤ most_entries) }
{
    let (board, seats) = Board::<L>::new(run.alloc, accepted.plan())?;
    let ports = ports_of(run.rt, run.alloc, &board, seats)?;
    let (piece, ports) = run_ports(run, accepted, team_mode, ports)?;
    let store = store_after(piece)?;
    let seats = seats_of(run.alloc, ports)?;
    match board.close(run.alloc, seats) {
        Ok(closed) => Ok((store, closed)),
        Err(_) => Err(AllocError),
    }
}

/// Runs an accepted program once on the one hart of its plan, with shared schedulers. Returns the final store and the journal of
/// the hart's port. No clause states that it returns, since it is a crew of one.
///
/// # Errors
///
/// `AllocError` if an allocation fails.
///
/// # Memory
///
/// It allocates the port and its journal, and as `run_ports` does.
pub fn on_plain_port<R: Threads + Wait + Sync, F: Fn(u8, u16, u8, u8) + Sync>(
    run: Run<'_, R, F>,
    accepted: &Accepted<'_>,
    team_mode: TeamMode,
) -> Result<(Store, Entries), AllocError>
    requires callable { F.IsAlwaysCallable run.pass.now }
    requires one { accepted.now.plan.harts ≡ 1 }
    requires tree { run.tree.now ≡ accepted.now.plan }
    ensures store { IfOk result (λ r. r.0 ≡ final_store (program_of accepted.now.program)) }
    ensures short { IfOk result (λ r. length r.1 ≤ most_entries) }
{
    let port = PlainPort::new(run.alloc, run.tree.plan())?;
    let mut ports = Vec::with_capacity(run.alloc, 1)?;
    ports.push(WaitingPort::new(port, run.rt))?;
    let (piece, mut ports) = run_ports(run, accepted, team_mode, ports)?;
    let store = store_after(piece)?;
    let Some(port) = ports.pop() else {
        unreachable!()
    };
    Ok((store, port.into_port().finish()))
}

// A port for each seat.
fn ports_of<'x, L: Laid, R: Wait>(
    rt: &'x R,
    alloc: Global,
    board: &'x Board<L>,
    seats: Vec<HartSeat>,
) -> Result<Vec<WaitingPort<'x, BoardPort<'x, L>, R>>, AllocError>
    requires { All (IsOf board.now) seats.items }
    ensures { IfOk result (λ ports. map (λ port. port.port.seat) ports.items ≡ seats.items) }
{
    let mut ports = Vec::with_capacity(alloc, seats.len())?;
    for seat in seats {
        ports.push(WaitingPort::new(BoardPort::new(board, seat), rt))?;
    }
    Ok(ports)
}

// The seats of the ports.
fn seats_of<'x, L: Laid, R>(
    alloc: Global,
    ports: Vec<WaitingPort<'x, BoardPort<'x, L>, R>>,
) -> Result<Vec<HartSeat>, AllocError>
    ensures { IfOk result
        (λ seats. seats.items ≡ map (λ port. port.port.seat) ports.entry.items) }
{
    let mut seats = Vec::with_capacity(alloc, ports.len())?;
    for port in ports {
        seats.push(port.into_port().into_seat())?;
    }
    Ok(seats)
}

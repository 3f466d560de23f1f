//! A board of either layout: made with its seats, and closed with them.
ghost use Rattle.std.specs.Prelude.{◌≡◌, ◌≤◌, ◌+◌, ◌-◌, [], ◌∷◌, ◌++◌, IfOk, vec_len};
ghost use Rattle.board_rule.specs.Layouts.{HasRoom};
ghost use Rattle.board_rule.specs.Views.{fresh_view};
ghost use Rattle.lent_board.specs.Of.{IsOf};
ghost use Rattle.lent_board.specs.PortViews.{port_view, table_name};
ghost use Rattle.lent_board.specs.Seats.{IsJournalOf};
ghost use Rattle.board_tests.specs.Harts.{IsHartOf, AreBetween};

use board_rule::Laid;
use lent_board::{Board, BoardPort, Closed, HartSeat};
use std::alloc::{AllocError, Global};
use transfer_table::Plan;

/// A board, with the first seat, the last one, and the seats between.
pub(crate) struct Opened<L: Laid> {
    pub board: Board<L>,
    pub first: HartSeat,
    pub last: HartSeat,
    pub between: Vec<HartSeat>,
}

/// The board of a plan for two harts or more.
pub(crate) fn open<L: Laid>(alloc: Global, plan: &Plan) -> Result<Opened<L>, AllocError>
    requires harts { 2 ≤ plan.now.harts }
    requires room { HasRoom L.layout plan.now.harts }
    ensures plan { IfOk result (λ o. o.board.plan ≡ plan.now) }
    ensures of { IfOk result (λ o. IsOf o.board o.first × IsOf o.board o.last) }
    ensures first { IfOk result
        (λ o. o.first.seat.me.0 ≡ record (fresh_view plan.now 0) { made = plan.now.harts }) }
    ensures last { IfOk result (λ o. o.last.seat.me.0 ≡ fresh_view plan.now (plan.now.harts - 1)) }
    ensures count { IfOk result (λ o. vec_len o.between + 2 ≡ plan.now.harts) }
    ensures between { IfOk result (λ o. AreBetween o.board o.between.items) }
{
    let (board, mut between) = Board::<L>::new(alloc, plan)?;
    let first = between.remove(0);
    let last = between.remove(between.len() - 1);
    Ok(Opened {
        board,
        first,
        last,
        between,
    })
}

/// The seat of a port of the board.
pub(crate) fn seat_of<'a, L: Laid>(board: &'a Board<L>, port: BoardPort<'a, L>) -> HartSeat
    requires table { (port_view port.seat).table ≡ table_name board.now.table.shared.table_id }
    requires plan { (port_view port.seat).plan ≡ board.now.plan }
    ensures of { IsOf board.now result }
    ensures hart { result.seat.me.0.hart ≡ (port_view port.entry.seat).hart }
{
    let _ = board;
    port.into_seat()
}

/// The journal of a board, closed with all its seats.
pub(crate) fn close<L: Laid>(
    alloc: Global,
    board: Board<L>,
    first: HartSeat,
    last: HartSeat,
    between: Vec<HartSeat>,
) -> Result<Closed<L>, AllocError>
    requires count { vec_len between + 2 ≡ board.plan.harts }
    requires ends { IsHartOf board 0 first × IsHartOf board (board.plan.harts - 1) last }
    requires between { AreBetween board between.items }
    ensures { IfOk result
        (λ closed. IsJournalOf board.plan (first ∷ (between.items ++ last ∷ [])) closed) }
{
    let mut seats = between;
    seats.insert(0, first)?;
    seats.push(last)?;
    match board.close(alloc, seats) {
        Ok(closed) => Ok(closed),
        Err(_) => Err(AllocError),
    }
}

/// The board of a plan for one hart, and its seat.
pub(crate) fn open_one<L: Laid>(
    alloc: Global,
    plan: &Plan,
) -> Result<(Board<L>, HartSeat), AllocError>
    requires one { plan.now.harts ≡ 1 }
    requires room { HasRoom L.layout plan.now.harts }
    ensures plan { IfOk result (λ r. r.0.plan ≡ plan.now) }
    ensures of { IfOk result (λ r. IsOf r.0 r.1) }
    ensures seat { IfOk result (λ r. r.1.seat.me.0 ≡ record (fresh_view plan.now 0) { made = 1 }) }
{
    let (board, mut seats) = Board::<L>::new(alloc, plan)?;
    let seat = seats.remove(0);
    Ok((board, seat))
}

/// The journal of a board for one hart.
pub(crate) fn close_one<L: Laid>(
    alloc: Global,
    board: Board<L>,
    seat: HartSeat,
) -> Result<Closed<L>, AllocError>
    requires one { board.plan.harts ≡ 1 }
    requires seat { IsHartOf board 0 seat }
    ensures { IfOk result (λ closed. IsJournalOf board.plan (seat ∷ []) closed) }
{
    let mut seats = Vec::with_capacity(alloc, 1)?;
    seats.push(seat)?;
    match board.close(alloc, seats) {
        Ok(closed) => Ok(closed),
        Err(_) => Err(AllocError),
    }
}

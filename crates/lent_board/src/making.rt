//! The seats of a new board.
ghost use Rattle.std.specs.Prelude.{◌≡◌, ◌+◌, ◌<◌, ◌≤◌, IfOk, vec_len};
ghost use Rattle.board_rule.specs.Layouts.{HasRoom};
ghost use Rattle.lent_board.specs.Seats.{AreSeats};

use crate::board::Board;
use crate::plays::Deal;
use crate::room::Room;
use crate::seat::HartSeat;
use atomic_table::Table;
use board_rule::Laid;
use std::alloc::{AllocError, Global};
use std::marker::PhantomData;
use transfer_table::Plan;

impl<L: Laid> Board<L> {
    /// The board, and a seat for each hart, in order. The board has an atomic word for each site and for each entry that a
    /// legal journal may have. A layout by owners has room for at most four harts, since these share one word.
    ///
    /// # Errors
    ///
    /// `AllocError` if an allocation fails.
    ///
    /// # Memory
    ///
    /// It allocates the words, a copy of the plan and the seats. No other call allocates.
    pub fn new(alloc: Global, plan: &Plan) -> Result<(Board<L>, Vec<HartSeat>), AllocError>
        requires few_harts { HasRoom L.layout plan.now.harts }
        ensures plan { IfOk result (λ r. r.0.plan ≡ plan.now) }
        ensures seats { IfOk result
            (λ r. (vec_len r.1 ≡ plan.now.harts)
            × AreSeats r.0.table.shared.table_id plan.now r.1.items) }
    {
        let sites = plan.sites();
        let harts = plan.harts();
        let width = 1 + sites as usize + sites as usize * (3 * harts as usize - 1);
        let words = vec![in alloc; 0; width]?;
        let own = plan.copy(alloc)?;
        let mut seats = Vec::with_capacity(alloc, harts as usize)?;
        let (table, seat) = Table::of_words(alloc, words.as_slice(), plan)?;
        seats.push(HartSeat {
            seat,
            hart: 0,
            owner: 0,
        })?;
        let board = Board {
            table,
            plan: own,
            sites,
            room: Room {
                harts,
                of: PhantomData,
            },
        };
        deal(&board, &mut seats, harts)?;
        Ok((board, seats))
    }
}

// Splits the seats of the harts from 1 on off the first.
fn deal<L: Laid>(board: &Board<L>, seats: &mut Vec<HartSeat>, harts: u8) -> Result<(), AllocError>
    requires count { (vec_len seats.old ≡ 1) × (harts ≡ board.now.plan.harts) }
    requires seats { AreSeats board.now.table.shared.table_id board.now.plan seats.old.items }
    ensures { IfOk result (λ _. (vec_len seats.new ≡ harts)
        × AreSeats board.now.table.shared.table_id board.now.plan seats.new.items) }
{
    for hart in 1..harts {
        next_seat(board, seats, hart)?;
    }
    Ok(())
}

// Splits the next hart's seat off the first.
fn next_seat<L: Laid>(
    board: &Board<L>,
    seats: &mut Vec<HartSeat>,
    hart: u8,
) -> Result<(), AllocError>
    requires count { (vec_len seats.old ≡ hart) × (0 < hart) × (hart < board.now.plan.harts) }
    requires seats { AreSeats board.now.table.shared.table_id board.now.plan seats.old.items }
    ensures { IfOk result (λ _. (vec_len seats.new ≡ hart + 1)
        × AreSeats board.now.table.shared.table_id board.now.plan seats.new.items) }
{
    let first = &mut seats[0];
    let seat = board.table.shared.split_seat::<Deal>(&mut first.seat);
    seats.push(HartSeat {
        seat,
        hart,
        owner: 0,
    })?;
    Ok(())
}

//! Sites that are registered with wishes and ended if they are empty, each in one step.

use open_board::{CheckedSeat, Entered, Finish, NotRegistered, OpenBoard, Refused};
use std::sync::Wait;
use std::test::Fail;
use std::thread::{Threads, for_each_mut};

/// The rounds of a test.
const ROUNDS: u32 = 1000;

/// The number of times that a home tries to end its site.
const TRIES: u32 = 1 << 30;

// Whether the refused calls of four harts with two levels leave the words of sites 1, 2 and 3.
fn refuses(
    board: &OpenBoard,
    home: &mut CheckedSeat<'_>,
    guest: &mut CheckedSeat<'_>,
) -> Option<bool> {
    let size = board.size();
    if size.harts as u16 * (size.levels as u16) < 3 {
        return None;
    }
    if home.end_if_empty() != Err(Refused::NotHome)
        || home.register_wishing(4) != Err(NotRegistered::TooManyWished)
        || board.peek(1) != 0
    {
        return Some(false);
    }
    // Site 2 is below site 1. Its word shows two wishes, site 1's word three.
    if home.register_wishing(3) != Ok(1) || home.register_wishing(2) != Ok(2) {
        return Some(false);
    }
    if board.peek(1) != 769 || board.peek(2) != 4_294_967_809 {
        return Some(false);
    }
    if home.register_wishing(4) != Err(NotRegistered::TooDeep)
        || home.end_if_empty() != Ok(Finish::Gone)
        || home.owner() != 1
        || board.peek(2) != 0
    {
        return Some(false);
    }
    // One guest registers without a wish below site 1, and both are too many to end it.
    if guest.try_enter(1) != Ok(Entered::Inside)
        || guest.end_if_empty() != Err(Refused::NotHome)
        || guest.register_wishing(0) != Ok(3)
        || board.peek(3) != 4_294_967_297
    {
        return Some(false);
    }
    if home.end_if_empty() != Ok(Finish::Busy { shown: 66_049 }) || board.peek(1) != 66_049 {
        return Some(false);
    }
    if guest.end_if_empty() != Ok(Finish::Gone) || guest.owner() != 1 || board.peek(3) != 0 {
        return Some(false);
    }
    // A closed site is ended by the call for closed sites.
    if guest.yield_hart() != Ok(())
        || home.close() != Ok(())
        || home.end_if_empty() != Err(Refused::IsClosed)
        || board.peek(1) != 515
    {
        return Some(false);
    }
    Some(home.unregister() == Ok(()) && home.owner() == 0 && board.peek(1) == 0)
}

#[test]
fn each_call_is_refused_by_name(rt: HostRuntime) -> Result<(), Fail> {
    let (board, seats) = OpenBoard::new(rt.alloc(), 4, 2)?;
    let mut seats = board.checked_seats(rt.alloc(), seats)?;
    assert_eq!(rt; seats.len(), 4);
    let mut home = seats.remove(0);
    let mut guest = seats.remove(0);
    assert_eq!(rt; refuses(&board, &mut home, &mut guest), Some(true));
    Ok(())
}

// Site 1 of four harts begins with three wishes, which the others meet, and ends once all have left.
fn round(
    home: &mut CheckedSeat<'_>,
    one: &mut CheckedSeat<'_>,
    two: &mut CheckedSeat<'_>,
    three: &mut CheckedSeat<'_>,
) -> bool {
    if home.register_wishing(3) != Ok(1) || home.request(1) != Err(Refused::TooManyWished) {
        return false;
    }
    if one.try_enter(1) != Ok(Entered::Inside)
        || two.try_enter(1) != Ok(Entered::Inside)
        || three.try_enter(1) != Ok(Entered::Inside)
    {
        return false;
    }
    if home.end_if_empty() != Ok(Finish::Busy { shown: 196_609 })
        || one.yield_hart() != Ok(())
        || two.yield_hart() != Ok(())
    {
        return false;
    }
    if home.end_if_empty() != Ok(Finish::Busy { shown: 65_537 }) || three.yield_hart() != Ok(()) {
        return false;
    }
    home.end_if_empty() == Ok(Finish::Gone) && home.owner() == 0
}

#[test]
fn a_site_begins_and_ends_many_times(rt: HostRuntime) -> Result<(), Fail> {
    let (board, seats) = OpenBoard::new(rt.alloc(), 4, 1)?;
    let mut seats = board.checked_seats(rt.alloc(), seats)?;
    assert_eq!(rt; seats.len(), 4);
    let mut home = seats.remove(0);
    let mut one = seats.remove(0);
    let mut two = seats.remove(0);
    let mut three = seats.remove(0);
    for _ in 0..ROUNDS {
        assert!(rt; round(&mut home, &mut one, &mut two, &mut three));
        assert_eq!(rt; board.peek(1), 0);
    }
    Ok(())
}

/// A hart, and whether a call of it came to something that it may not.
#[derive(Drop)]
struct Opener<'a> {
    seat: CheckedSeat<'a>,
    stuck: bool,
}

// The home tries until its site is gone. Its two wishes are met by at most two harts, which leave.
fn finish(seat: &mut CheckedSeat<'_>) -> bool {
    for _ in 0..TRIES {
        match seat.end_if_empty() {
            Ok(Finish::Gone) => return true,
            Ok(_) => {}
            Err(_) => return false,
        }
    }
    false
}

// The hart is a guest of each site that admits it.
fn visit(opener: &mut Opener<'_>) {
    for before in 0..4u16 {
        if opener.seat.try_enter(before + 1) == Ok(Entered::Inside)
            && opener.seat.yield_hart() != Ok(())
        {
            opener.stuck = true;
        }
    }
}

fn open_and_end<R: Threads + Wait + Sync>(rt: &R, openers: &mut [Opener<'_>]) {
    let go = |_: usize, opener: &mut Opener<'_>| {
        for _ in 0..ROUNDS {
            if opener.seat.register_wishing(2).is_err() || !finish(&mut opener.seat) {
                opener.stuck = true;
            }
            visit(opener);
        }
    };
    let parts = openers.len().max(1);
    for_each_mut(rt, openers, parts, &go);
}

#[test]
fn four_threads_begin_and_end(rt: HostRuntime) -> Result<(), Fail> {
    let (board, seats) = OpenBoard::new(rt.alloc(), 4, 1)?;
    let seats = board.checked_seats(rt.alloc(), seats)?;
    let mut openers = Vec::with_capacity(rt.alloc(), 4)?;
    for seat in seats {
        openers.push(Opener { seat, stuck: false })?;
    }
    open_and_end(&rt, openers.as_mut_slice());
    for opener in &openers {
        assert!(rt; !opener.stuck && opener.seat.owner() == 0);
    }
    assert!(rt; board.size().harts == 4 && board.size().levels == 1);
    for before in 0..4u16 {
        assert_eq!(rt; word(&board, before + 1), Some(0));
    }
    Ok(())
}

// The word of the site, if the board has it.
fn word(board: &OpenBoard, site: u16) -> Option<u64> {
    let size = board.size();
    if site > size.harts as u16 * size.levels as u16 {
        return None;
    }
    Some(board.peek(site))
}

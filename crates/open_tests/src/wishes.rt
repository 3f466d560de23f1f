//! Wishes that are taken back, counts that are read, and the last guest of a closed site.

use open_board::{CheckedSeat, Counts, Entered, OpenBoard, Refused, Withdrawn};
use std::sync::Wait;
use std::test::Fail;
use std::thread::{Threads, for_each_mut};

/// The rounds of a test.
const ROUNDS: u32 = 1000;

/// The number of times that a home checks whether its site is empty.
const LOOKS: u32 = 1 << 30;

// Whether the home and another hart read these counts of site 1.
fn has(home: &mut CheckedSeat<'_>, other: &mut CheckedSeat<'_>, wishes: u8, guests: u8) -> bool {
    let counts = Counts { wishes, guests };
    home.read_home() == Ok(counts) && other.read_site(1) == Ok(counts)
}

// Whether calls that are not the hart's are refused. The board has four sites.
fn refuses(seat: &mut CheckedSeat<'_>) -> bool {
    seat.withdraw(0) == Err(Refused::NotHome)
        && seat.read_home() == Err(Refused::NotHome)
        && seat.read_site(0) == Err(Refused::NoSuchSite)
        && seat.read_site(5) == Err(Refused::NoSuchSite)
}

// Site 1 of four harts takes back wishes between the harts' entries, and asks for as many as it may. Its words are compared.
fn round(
    board: &OpenBoard,
    home: &mut CheckedSeat<'_>,
    one: &mut CheckedSeat<'_>,
    two: &mut CheckedSeat<'_>,
) -> Option<bool> {
    let size = board.size();
    if size.harts as u16 * (size.levels as u16) == 0 {
        return None;
    }
    // The word shows three wishes, then one.
    if home.register_wishing(3) != Ok(1) || !has(home, one, 3, 0) || board.peek(1) != 769 {
        return Some(false);
    }
    if home.withdraw(4) != Ok(Withdrawn::TooFew { shown: 769 })
        || home.withdraw(2) != Ok(Withdrawn::Done)
        || board.peek(1) != 257
    {
        return Some(false);
    }
    if one.try_enter(1) != Ok(Entered::Inside)
        || two.try_enter(1) != Ok(Entered::NotWanted { shown: 65_537 })
        || home.withdraw(1) != Ok(Withdrawn::TooFew { shown: 65_537 })
        || !has(home, two, 0, 1)
    {
        return Some(false);
    }
    // What was taken back may be requested again.
    if home.request(3) != Err(Refused::TooManyWished)
        || home.request(2) != Ok(())
        || home.withdraw(0) != Ok(Withdrawn::Done)
        || two.try_enter(1) != Ok(Entered::Inside)
        || board.peek(1) != 131_329
    {
        return Some(false);
    }
    if home.close() != Ok(())
        || home.withdraw(1) != Ok(Withdrawn::Done)
        || board.peek(1) != 131_075
    {
        return Some(false);
    }
    // The second guest of the closed site is the last.
    if home.yield_last() != Err(Refused::NotGuest)
        || one.yield_last() != Ok(false)
        || two.yield_last() != Ok(true)
        || board.peek(1) != 3
    {
        return Some(false);
    }
    // A guest of an open site is never the last: `yield_last` returns false.
    if home.unregister() != Ok(())
        || home.register_wishing(1) != Ok(1)
        || one.try_enter(1) != Ok(Entered::Inside)
        || one.yield_last() != Ok(false)
    {
        return Some(false);
    }
    Some(home.end_if_empty().is_ok() && home.owner() == 0 && board.peek(1) == 0)
}

#[test]
fn wishes_are_taken_back(rt: HostRuntime) -> Result<(), Fail> {
    let (board, seats) = OpenBoard::new(rt.alloc(), 4, 1)?;
    let mut seats = board.checked_seats(rt.alloc(), seats)?;
    assert_eq!(rt; seats.len(), 4);
    let mut home = seats.remove(0);
    let mut one = seats.remove(0);
    let mut two = seats.remove(0);
    assert!(rt; refuses(&mut home) && refuses(&mut one));
    for _ in 0..ROUNDS {
        assert_eq!(rt; round(&board, &mut home, &mut one, &mut two), Some(true));
    }
    assert!(rt; refuses(&mut home) && refuses(&mut one));
    Ok(())
}

/// A hart, the closed sites of which it was the last guest, and whether a call of it came to something that it may not.
#[derive(Drop)]
struct Taker<'a> {
    seat: CheckedSeat<'a>,
    lasts: u64,
    closed_with_guests: u64,
    ended: u64,
    stuck: bool,
}

// The home takes back a wish if it can, closes its site, and waits until it is empty.
fn finish(taker: &mut Taker<'_>) -> bool {
    if taker.seat.withdraw(1).is_err() || taker.seat.close() != Ok(()) {
        return false;
    }
    let Ok(counts) = taker.seat.read_home() else {
        return false;
    };
    if counts.wishes > 2 || counts.guests > 2 {
        return false;
    }
    if counts.guests > 0 {
        taker.closed_with_guests = taker.closed_with_guests.wrapping_add(1);
    }
    for _ in 0..LOOKS {
        match taker.seat.unregister() {
            Ok(()) => {
                taker.ended = taker.ended.wrapping_add(1);
                return true;
            }
            Err(Refused::NotEmpty { .. }) => {}
            Err(_) => return false,
        }
    }
    false
}

// The hart is a guest of each site that admits it.
fn visit(taker: &mut Taker<'_>) {
    for before in 0..4u16 {
        if taker.seat.try_enter(before + 1) != Ok(Entered::Inside) {
            continue;
        }
        match taker.seat.yield_last() {
            Ok(true) => taker.lasts = taker.lasts.wrapping_add(1),
            Ok(false) => {}
            Err(_) => taker.stuck = true,
        }
    }
}

fn take_back<R: Threads + Wait + Sync>(rt: &R, takers: &mut [Taker<'_>]) {
    let go = |_: usize, taker: &mut Taker<'_>| {
        for _ in 0..ROUNDS {
            if taker.seat.register_wishing(2).is_err() || !finish(taker) {
                taker.stuck = true;
            }
            visit(taker);
        }
    };
    let parts = takers.len().max(1);
    for_each_mut(rt, takers, parts, &go);
}

#[test]
fn one_guest_of_each_closed_site_is_the_last(rt: HostRuntime) -> Result<(), Fail> {
    let (board, seats) = OpenBoard::new(rt.alloc(), 4, 1)?;
    let seats = board.checked_seats(rt.alloc(), seats)?;
    let mut takers = Vec::with_capacity(rt.alloc(), 4)?;
    for seat in seats {
        takers.push(Taker {
            seat,
            lasts: 0,
            closed_with_guests: 0,
            ended: 0,
            stuck: false,
        })?;
    }
    take_back(&rt, takers.as_mut_slice());
    let (mut lasts, mut closed_with_guests, mut ended) = (0u64, 0u64, 0u64);
    for taker in &takers {
        assert!(rt; !taker.stuck && taker.seat.owner() == 0);
        lasts = lasts.wrapping_add(taker.lasts);
        closed_with_guests = closed_with_guests.wrapping_add(taker.closed_with_guests);
        ended = ended.wrapping_add(taker.ended);
    }
    // A site that its home saw with a guest after its close had exactly one last guest; no site had two.
    assert!(rt; closed_with_guests <= lasts && lasts <= ended);
    assert_eq!(rt; ended, 4000);
    Ok(())
}

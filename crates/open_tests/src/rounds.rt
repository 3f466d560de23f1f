//! One site that lends harts for many rounds and is never closed between them.

use open_board::{CheckedSeat, Entered, OpenBoard, Refused};
use std::test::Fail;

/// The rounds of the site. They request many more harts than a board has.
const ROUNDS: u32 = 1000;

// The home requests so many harts, and the next is refused.
fn fills(home: &mut CheckedSeat<'_>, count: u8) -> bool {
    home.request(count) == Ok(()) && home.request(1) == Err(Refused::TooManyWished)
}

// The guest enters site 1, and the site can still request no hart.
fn comes(home: &mut CheckedSeat<'_>, guest: &mut CheckedSeat<'_>) -> bool {
    guest.try_enter(1) == Ok(Entered::Inside)
        && home.request(1) == Err(Refused::TooManyWished)
        && home.request(0) == Ok(())
}

// Site 1 of four harts requests the three others, who enter it. One guest is below it for a while, which doesn't make room.
// Then each yields, and makes room for one request.
fn round(
    home: &mut CheckedSeat<'_>,
    one: &mut CheckedSeat<'_>,
    two: &mut CheckedSeat<'_>,
    three: &mut CheckedSeat<'_>,
) -> bool {
    if home.request(4) != Err(Refused::TooManyWished) || !fills(home, 3) {
        return false;
    }
    if !comes(home, one) || !comes(home, two) || !comes(home, three) {
        return false;
    }
    if three.register().is_err() || home.request(1) != Err(Refused::TooManyWished) {
        return false;
    }
    if three.close() != Ok(()) || three.unregister() != Ok(()) || three.yield_hart() != Ok(()) {
        return false;
    }
    // One wish and two guests are three again.
    if !fills(home, 1) || !comes(home, three) {
        return false;
    }
    one.yield_hart() == Ok(()) && two.yield_hart() == Ok(()) && three.yield_hart() == Ok(())
}

#[test]
fn a_site_lends_for_many_rounds(rt: HostRuntime) -> Result<(), Fail> {
    let (board, seats) = OpenBoard::new(rt.alloc(), 4, 1)?;
    let mut seats = board.checked_seats(rt.alloc(), seats)?;
    assert_eq!(rt; seats.len(), 4);
    let mut home = seats.remove(0);
    let mut one = seats.remove(0);
    let mut two = seats.remove(0);
    let mut three = seats.remove(0);
    assert_eq!(rt; home.register(), Ok(1));
    for _ in 0..ROUNDS {
        assert!(rt; round(&mut home, &mut one, &mut two, &mut three));
        assert_eq!(rt; board.peek(1), 1);
    }
    assert!(rt; home.close() == Ok(()) && home.unregister() == Ok(()));
    assert_eq!(rt; home.owner(), 0);
    Ok(())
}

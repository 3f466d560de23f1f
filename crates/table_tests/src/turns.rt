//! The scheduler by turns, of site 4, with room for two contexts and three children.
use crate::moves::Got::*;
use crate::moves::Move::*;
use crate::moves::{Got, Move, Played, Wrong, calls_back, enters, first_wrong, next_of, put};
use sched_api::{Scheduler, sched_reenter};
use std::alloc::Global;
use std::sync::Wait;
use std::test::Fail;
use turn_sched::{SharedTurns, Turns, TurnsHand};

impl Played<()> for Turns<char> {
    fn does(&mut self, hold: (), it: Move) -> Got {
        match it {
            Move::Enter => next_of(self.enter(hold)),
            Move::Reenter => next_of(sched_reenter(self, hold)),
            Move::Enters(times, child) => enters(self, hold, times, child),
            Move::Unblock(context) => put(self.unblock(hold, context)),
            Move::PutLast(context) => put(self.put_last(context)),
            _ => calls_back(self, hold, it),
        }
    }
}

impl<'a, R: Wait + 'a> Played<&'a R> for TurnsHand<'a, char, R> {
    fn does(&mut self, hold: &'a R, it: Move) -> Got {
        match it {
            Move::Enter => next_of(self.enter(hold)),
            Move::Reenter => next_of(sched_reenter(self, hold)),
            Move::Enters(times, child) => enters(self, hold, times, child),
            Move::Unblock(context) => put(self.unblock(hold, context)),
            Move::PutLast(context) => put(self.put_last(hold, context)),
            _ => calls_back(self, hold, it),
        }
    }
}

// The first wrong line of a script.
fn wrong(alloc: Global, script: &[(Move, Got)]) -> Result<Option<Wrong>, Fail> {
    let mut turns = Turns::new(alloc, 4, 2, 3)?;
    Ok(first_wrong(&mut turns, (), script))
}

const BY_TURNS: &[(Move, Got)] = &[
    (Request(5, 3), Yes),
    (Request(7, 1), Yes),
    (Request(9, 2), Yes),
    (Enter, Lend(5)),
    (Enter, Lend(7)),
    (Enter, Lend(9)),
    (Request(7, 1), Yes),
    (Reenter, Lend(5)),
    (Reenter, Lend(9)),
    (Reenter, Lend(7)),
    (Reenter, Lend(5)),
    (Enter, Nothing),
];

#[test]
fn children_are_lent_to_by_turns(rt: HostRuntime) -> Result<(), Fail> {
    assert_eq!(rt; wrong(rt.alloc(), BY_TURNS)?, None);
    Ok(())
}

const AGAIN: &[(Move, Got)] = &[
    (Request(5, 1), Yes),
    (Request(7, 1), Yes),
    (Request(5, 1), Yes),
    (Enter, Lend(5)),
    (Enter, Lend(7)),
    (Enter, Lend(5)),
    (Enter, Nothing),
];

#[test]
fn a_child_that_requests_again_keeps_its_position(rt: HostRuntime) -> Result<(), Fail> {
    assert_eq!(rt; wrong(rt.alloc(), AGAIN)?, None);
    Ok(())
}

const ENDS: &[(Move, Got)] = &[
    (Request(5, 2), Yes),
    (Request(6, 2), Yes),
    (Request(7, 2), Yes),
    (Request(8, 2), Yes),
    (Request(6, 0), Yes),
    (Unregister(6), Yes),
    (Enter, Lend(5)),
    (Enter, Lend(7)),
    (Enter, Lend(5)),
    (Enter, Lend(7)),
    (Enter, Nothing),
    (Request(8, 200), Yes),
    (Request(8, 200), Yes),
    (Enters(255, 8), Yes),
    (Enter, Nothing),
];

#[test]
fn wishes_end_with_the_room_and_the_child(rt: HostRuntime) -> Result<(), Fail> {
    assert_eq!(rt; wrong(rt.alloc(), ENDS)?, None);
    Ok(())
}

const CONTEXTS_FIRST: &[(Move, Got)] = &[
    (IsAt(4), Yes),
    (Request(5, 1), Yes),
    (PutLast('a'), Yes),
    (Unblock('b'), Yes),
    (PutLast('c'), Refused('c')),
    (Enter, Run('a')),
    (PutLast('a'), Yes),
    (Enter, Run('b')),
    (Enter, Run('a')),
    (Enter, Lend(5)),
];

#[test]
fn contexts_run_in_turn_and_before_children(rt: HostRuntime) -> Result<(), Fail> {
    assert_eq!(rt; wrong(rt.alloc(), CONTEXTS_FIRST)?, None);
    Ok(())
}

const RECEIPTS: &[(Move, Got)] = &[
    (Request(5, 2), Yes),
    (Register(7), Yes),
    (Yielded(7), Yes),
    (Unregister(7), Yes),
    (Block, Yes),
];

#[test]
fn callbacks_return_receipts_of_their_calls(rt: HostRuntime) -> Result<(), Fail> {
    assert_eq!(rt; wrong(rt.alloc(), RECEIPTS)?, None);
    Ok(())
}

const ONE_PUTS: &[(Move, Got)] = &[
    (IsAt(4), Yes),
    (Request(5, 2), Yes),
    (Request(7, 1), Yes),
    (PutLast('a'), Yes),
    (Unblock('b'), Yes),
    (PutLast('c'), Refused('c')),
];

const OTHER_TAKES: &[(Move, Got)] = &[
    (Enter, Run('a')),
    (Enter, Run('b')),
    (Enter, Lend(5)),
    (Enter, Lend(7)),
    (Enter, Lend(5)),
];

const ONE_ENDS: &[(Move, Got)] = &[(Request(7, 1), Yes), (Unregister(7), Yes)];

const NOTHING: &[(Move, Got)] = &[(Enter, Nothing)];

#[test]
fn hands_share_one_ring(rt: HostRuntime) -> Result<(), Fail> {
    let shared = SharedTurns::new(Turns::new(rt.alloc(), 4, 2, 3)?);
    let mut one = TurnsHand::<char, HostRuntime>::new(&shared);
    let mut other = TurnsHand::<char, HostRuntime>::new(&shared);
    assert_eq!(rt; first_wrong(&mut one, &rt, ONE_PUTS), None);
    assert_eq!(rt; first_wrong(&mut other, &rt, OTHER_TAKES), None);
    assert_eq!(rt; first_wrong(&mut one, &rt, ONE_ENDS), None);
    assert_eq!(rt; first_wrong(&mut other, &rt, NOTHING), None);
    Ok(())
}

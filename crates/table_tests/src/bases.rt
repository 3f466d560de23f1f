//! The base by itself, under a lock, and as harts share it.
use crate::moves::Got::*;
use crate::moves::Move::*;
use crate::moves::{Got, Move, Played, Wrong, calls_back, first_wrong, was};
use base_sched::{Base, BaseHand, SharedBase, SharedBaseHand};
use sched_api::{Next, Scheduler, sched_reenter};
use std::alloc::Global;
use std::sync::{Mutex, Wait};
use std::test::Fail;

// The next action of a hart in the base, which has no context.
fn lent(next: Next<()>) -> Got {
    match next {
        Next::Run(()) => Got::Yes,
        Next::Lend(site) => Got::Lend(site),
        Next::Nothing => Got::Nothing,
    }
}

impl Played<()> for Base {
    fn does(&mut self, hold: (), it: Move) -> Got {
        match it {
            Move::Enter => lent(self.enter(hold)),
            Move::Reenter => lent(sched_reenter(self, hold)),
            Move::Unblock(_) => was(self.unblock(hold, ()).is_ok()),
            Move::Shut => {
                self.shut();
                Got::Yes
            }
            Move::IsShut => was(self.is_shut()),
            _ => calls_back(self, hold, it),
        }
    }
}

impl<'a, R: Wait + 'a> Played<&'a R> for BaseHand<'a, R> {
    fn does(&mut self, hold: &'a R, it: Move) -> Got {
        match it {
            Move::Enter => lent(self.enter(hold)),
            Move::Shut => {
                self.shut(hold);
                Got::Yes
            }
            Move::IsShut => was(self.is_shut(hold)),
            _ => calls_back(self, hold, it),
        }
    }
}

// Each move but the last two by a hand of its own.
impl<'a, R: Wait + 'a> Played<&'a R> for SharedBase {
    fn does(&mut self, hold: &'a R, it: Move) -> Got {
        match it {
            Move::Enter => lent(SharedBaseHand::new(self).enter(hold)),
            Move::Shut => {
                self.shut(hold);
                Got::Yes
            }
            Move::IsShut => was(self.is_shut()),
            _ => calls_back(&mut SharedBaseHand::new(self), hold, it),
        }
    }
}

// The first wrong line of a script that a base with room for wishes of so many sites plays.
fn wrong(alloc: Global, sites: u16, script: &[(Move, Got)]) -> Result<Option<Wrong>, Fail> {
    let mut base = Base::new(alloc, sites)?;
    Ok(first_wrong(&mut base, (), script))
}

const OLDEST_FIRST: &[(Move, Got)] = &[
    (IsAt(0), Yes),
    (Request(3, 2), Yes),
    (Request(1, 1), Yes),
    (Enter, Lend(3)),
    (Enter, Lend(3)),
    (Reenter, Lend(1)),
    (Enter, Nothing),
    (IsShut, No),
    (Unblock('a'), Yes),
    (Block, Yes),
];

#[test]
fn the_oldest_wish_is_lent_first(rt: HostRuntime) -> Result<(), Fail> {
    assert_eq!(rt; wrong(rt.alloc(), 3, OLDEST_FIRST)?, None);
    Ok(())
}

const ENDS: &[(Move, Got)] = &[
    (Request(1, 14), Yes),
    (Request(2, 3), Yes),
    (Unregister(1), Yes),
    (Enter, Lend(2)),
    (Enter, Nothing),
    (Request(1, 1), Yes),
    (Shut, Yes),
    (Request(1, 1), Yes),
    (Enter, Nothing),
];

#[test]
fn wishes_end_with_the_room_the_child_and_the_base(rt: HostRuntime) -> Result<(), Fail> {
    assert_eq!(rt; wrong(rt.alloc(), 1, ENDS)?, None);
    Ok(())
}

const UNDER_A_LOCK: &[(Move, Got)] = &[
    (Request(3, 2), Yes),
    (Request(1, 1), Yes),
    (Enter, Lend(3)),
    (Enter, Lend(3)),
    (Enter, Lend(1)),
    (Enter, Nothing),
    (IsShut, No),
    (Request(2, 1), Yes),
    (Shut, Yes),
    (IsShut, Yes),
    (Request(2, 1), Yes),
    (Enter, Nothing),
];

// The first wrong line of a script that a hand on a base under a lock plays.
fn wrong_under_a_lock<R: Wait>(rt: &R, base: Base, script: &[(Move, Got)]) -> Option<Wrong> {
    let lock = Mutex::new(base);
    let mut hand = BaseHand::<R>::new(&lock);
    first_wrong(&mut hand, rt, script)
}

#[test]
fn a_base_behind_a_lock(rt: HostRuntime) -> Result<(), Fail> {
    let base = Base::new(rt.alloc(), 3)?;
    assert_eq!(rt; wrong_under_a_lock(&rt, base, UNDER_A_LOCK), None);
    Ok(())
}

const SHARED: &[(Move, Got)] = &[
    (Enter, Nothing),
    (Request(3, 2), Yes),
    (Request(1, 1), Yes),
    (Enter, Lend(3)),
    (Enter, Lend(3)),
    (Unregister(1), Yes),
    (Enter, Nothing),
    (Enter, Nothing),
];

const SHARED_AND_SHUT: &[(Move, Got)] = &[
    (IsShut, No),
    (Request(2, 1), Yes),
    (Shut, Yes),
    (IsShut, Yes),
    (Enter, Nothing),
    (Request(2, 1), Yes),
    (Enter, Nothing),
    (Register(2), Yes),
    (Yielded(2), Yes),
];

// The first wrong line of a script that a base plays which harts share.
fn wrong_if_shared<R: Wait>(rt: &R, base: Base, script: &[(Move, Got)]) -> Option<Wrong> {
    let mut shared = SharedBase::new(base);
    first_wrong(&mut shared, rt, script)
}

#[test]
fn a_base_that_harts_share(rt: HostRuntime) -> Result<(), Fail> {
    let base = Base::new(rt.alloc(), 3)?;
    assert_eq!(rt; wrong_if_shared(&rt, base, SHARED), None);
    Ok(())
}

#[test]
fn a_base_that_harts_share_is_shut(rt: HostRuntime) -> Result<(), Fail> {
    let base = Base::new(rt.alloc(), 3)?;
    assert_eq!(rt; wrong_if_shared(&rt, base, SHARED_AND_SHUT), None);
    Ok(())
}

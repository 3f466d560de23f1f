//! The lists of which a scheduler is made: an agenda of three contexts, and wishes.
use crate::moves::Got::*;
use crate::moves::Move::*;
use crate::moves::{Got, Move, Played, Wrong, first_wrong, next_of, put, taken};
use sched_api::{Agenda, Wishes};
use std::alloc::Global;
use std::collections::VecDeque;
use std::test::Fail;

impl Played<()> for Agenda<char> {
    fn does(&mut self, _hold: (), it: Move) -> Got {
        match it {
            Move::Enter => next_of(self.take_next()),
            Move::PutLast(context) => put(self.put_ready(context)),
            Move::CountReady => Got::Count(self.ready_count()),
            Move::TakeReady => taken(self.take_ready()),
            Move::TakeUnbegun => taken(self.take_unbegun()),
            Move::ReadLast => taken(self.last_unbegun().copied()),
            Move::TakeLast => taken(self.take_last()),
            Move::Request(child, count) => {
                self.add_wishes(child, count);
                Got::Yes
            }
            Move::Unregister(child) => {
                self.remove_wishes(child);
                Got::Yes
            }
            _ => Got::NoMove,
        }
    }
}

// The first wrong line of a script that an agenda plays, with room for one ready context and three wishes, and with two contexts
// that aren't begun.
fn wrong(alloc: Global, script: &[(Move, Got)]) -> Result<Option<Wrong>, Fail> {
    let mut unbegun = VecDeque::with_capacity(alloc, 2)?;
    unbegun.push_back('a')?;
    unbegun.push_back('b')?;
    let mut agenda = Agenda::new(alloc, 1, 3, unbegun)?;
    Ok(first_wrong(&mut agenda, (), script))
}

const IN_ORDER: &[(Move, Got)] = &[
    (Request(5, 2), Yes),
    (Enter, Run('a')),
    (PutLast('c'), Yes),
    (PutLast('d'), Refused('d')),
    (Enter, Run('c')),
    (Enter, Run('b')),
    (Enter, Lend(5)),
    (Unregister(5), Yes),
    (Enter, Nothing),
];

#[test]
fn ready_contexts_go_before_new_ones_and_these_before_wishes(rt: HostRuntime) -> Result<(), Fail> {
    assert_eq!(rt; wrong(rt.alloc(), IN_ORDER)?, None);
    Ok(())
}

const BY_THEMSELVES: &[(Move, Got)] = &[
    (PutLast('c'), Yes),
    (CountReady, Count(1)),
    (TakeReady, Run('c')),
    (TakeReady, Nothing),
    (ReadLast, Run('b')),
    (TakeLast, Run('b')),
    (Enter, Run('a')),
    (TakeLast, Nothing),
];

#[test]
fn ready_contexts_and_the_last_new_one_are_taken_by_themselves(
    rt: HostRuntime,
) -> Result<(), Fail> {
    assert_eq!(rt; wrong(rt.alloc(), BY_THEMSELVES)?, None);
    Ok(())
}

const FIRST_OF_EACH: &[(Move, Got)] = &[
    (TakeReady, Nothing),
    (PutLast('c'), Yes),
    (CountReady, Count(1)),
    (TakeUnbegun, Run('a')),
    (TakeReady, Run('c')),
    (TakeUnbegun, Run('b')),
    (TakeUnbegun, Nothing),
];

#[test]
fn each_list_gives_its_first(rt: HostRuntime) -> Result<(), Fail> {
    assert_eq!(rt; wrong(rt.alloc(), FIRST_OF_EACH)?, None);
    Ok(())
}

impl Played<()> for Wishes {
    fn does(&mut self, _hold: (), it: Move) -> Got {
        match it {
            Move::Enter => match self.take_oldest() {
                Some(site) => Got::Lend(site),
                None => Got::Nothing,
            },
            Move::Request(child, count) => {
                self.add(child, count);
                Got::Yes
            }
            Move::Unregister(child) => {
                self.remove(child);
                Got::Yes
            }
            Move::Shut => {
                self.close();
                Got::Yes
            }
            _ => Got::NoMove,
        }
    }
}

const WISHES: &[(Move, Got)] = &[
    (Request(5, 1), Yes),
    (Request(7, 4), Yes),
    (Unregister(5), Yes),
    (Enter, Lend(7)),
    (Request(5, 1), Yes),
    (Enter, Lend(7)),
    (Enter, Lend(5)),
    (Enter, Nothing),
    (Shut, Yes),
    (Request(5, 1), Yes),
    (Enter, Nothing),
];

#[test]
fn wishes_are_met_in_their_order(rt: HostRuntime) -> Result<(), Fail> {
    let mut wishes = Wishes::new(rt.alloc(), 3)?;
    assert_eq!(rt; first_wrong(&mut wishes, (), WISHES), None);
    Ok(())
}

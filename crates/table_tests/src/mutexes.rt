//! A mutex with room for two, by itself and shared.
ghost use Rattle.std.specs.Prelude.{◌≡◌, IfOk};
ghost use Rattle.lithe_mutex.specs.Mutex.{Free};

use lithe_mutex::*;
use std::alloc::{AllocError, Global};
use std::test::Fail;

fn mutex_of_seven(alloc: Global) -> Result<MutexState<u8, char>, AllocError>
    ensures { IfOk result (λ mutex. mutex ≡ record { possession = Free 7; room = 2 }) }
{
    MutexState::new(alloc, 2, 7)
}

#[test]
fn waiters_are_handed_the_value_in_order(rt: HostRuntime) -> Result<(), Fail> {
    let mut mutex = mutex_of_seven(rt.alloc())?;
    assert_eq!(rt; mutex.value().copied(), Some(7));
    assert_eq!(rt; mutex.acquire('p'), Acquired::Got(7, 'p'));
    assert_eq!(rt; mutex.value().copied(), None);
    assert_eq!(rt; mutex.acquire('q'), Acquired::Kept);
    assert_eq!(rt; mutex.acquire('r'), Acquired::Kept);
    assert!(rt; !mutex.can_acquire());
    assert_eq!(rt; mutex.release(8), Released::Handed(8, 'q'));
    assert_eq!(rt; mutex.release(9), Released::Handed(9, 'r'));
    assert_eq!(rt; mutex.release(10), Released::Free);
    assert!(rt; !mutex.is_held());
    assert_eq!(rt; mutex.acquire('p'), Acquired::Got(10, 'p'));
    Ok(())
}

#[test]
fn a_shared_mutex_gives_back_what_it_cant_take(rt: HostRuntime) -> Result<(), Fail> {
    let mutex = LitheMutex::new(mutex_of_seven(rt.alloc())?);
    assert_eq!(rt; mutex.acquire(&rt, 'p'), Reply::Did(Acquired::Got(7, 'p')));
    assert_eq!(rt; mutex.acquire(&rt, 'q'), Reply::Did(Acquired::Kept));
    assert_eq!(rt; mutex.acquire(&rt, 'r'), Reply::Did(Acquired::Kept));
    assert_eq!(rt; mutex.acquire(&rt, 's'), Reply::NoRoom('s'));
    assert_eq!(rt; mutex.release(&rt, 8), Reply::Did(Released::Handed(8, 'q')));
    assert_eq!(rt; mutex.release(&rt, 9), Reply::Did(Released::Handed(9, 'r')));
    assert_eq!(rt; mutex.release(&rt, 10), Reply::Did(Released::Free));
    assert_eq!(rt; mutex.release(&rt, 11), Reply::NotHeld(11));
    assert_eq!(rt; mutex.acquire(&rt, 'p'), Reply::Did(Acquired::Got(10, 'p')));
    Ok(())
}

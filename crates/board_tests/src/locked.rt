//! Two harts at one site by ports on one ledger: the results, words and entries of a board by owners.

use crate::row::{BY_OWNERS, is_played, is_row};
use hart_port::{Ledger, LockedPort};
use std::sync::Mutex;
use std::test::Fail;
use transfer_table::Plan;

#[test]
fn two_harts_on_one_ledger(rt: HostRuntime) -> Result<(), Fail> {
    let plan = Plan::new(rt.alloc(), 2, &[0])?;
    let lock = Mutex::new(Ledger::new(rt.alloc(), &plan)?);
    let mut home = LockedPort::<HostRuntime>::new(rt.alloc(), &lock, &plan, 0)?;
    let mut guest = LockedPort::<HostRuntime>::new(rt.alloc(), &lock, &plan, 1)?;
    assert!(rt; is_played(&lock, &mut home, &mut guest, &rt, &BY_OWNERS));
    drop(home);
    drop(guest);
    let entries = lock.into_inner().into_entries();
    assert!(rt; is_row(rt.alloc(), &plan, 1, entries.as_slice())?);
    Ok(())
}

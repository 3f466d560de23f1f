//! Two harts at one site by the calls of the layer: on one ledger, under a base.
ghost use Rattle.std.specs.Prelude.{◌≡◌, [], ◌∷◌, true, false};
ghost use Rattle.hart_port.specs.PortView.{is_in, registered, requested_by};
ghost use Rattle.hart_port.specs.Locked.{first_locked};

use base_sched::Base;
use hart_port::{Entered, Ledger, LockedPort, Port, Seen};
use sched_api::{
    Call, Hearing, Next, Scheduler, Told, sched_register, sched_request, sched_unregister,
    sched_yield,
};
use std::alloc::Global;
use std::sync::{Mutex, Wait};
use std::test::Fail;
use std::thread::Threads;
use transfer_table::{Entry, Plan, first_fault};

// The receipt of the base's callback for a call at the site.
fn of_site(call: Call, count: u8) -> Told {
    Told {
        call,
        child: 1,
        count,
    }
}

// Whether one hart registers the site and requests another hart from the base.
fn has_asked<'a, R: Threads + Wait + Sync>(
    rt: &'a R,
    home: &mut LockedPort<'a, R>,
    base: &mut Base,
) -> bool
    requires plan { home.old.view.plan ≡ record { harts = 2; parents = 0 ∷ [] } }
    requires first { home.old ≡ first_locked home.old.view.plan 0 }
    ensures { result ≡ true → home.new.view ≡ requested_by (registered home.old.view 1) 1 1 }
{
    let Ok(heard) = sched_register(home, rt, base, (), 1) else {
        return false;
    };
    if heard.told() != of_site(Call::Registered, 0) {
        return false;
    }
    let heard = sched_request(home, rt, base, (), 1, 1);
    heard.told() == of_site(Call::Requested, 1)
}

// Whether the base lends the other hart, which comes and goes.
fn has_helped<'a, R: Threads + Wait + Sync>(
    rt: &'a R,
    guest: &mut LockedPort<'a, R>,
    base: &mut Base,
) -> bool
    requires plan { guest.old.view.plan ≡ record { harts = 2; parents = 0 ∷ [] } }
    requires first { guest.old ≡ first_locked guest.old.view.plan 1 }
{
    if base.enter(()) != Next::Lend(1) || guest.try_enter(rt, 1) != Entered::Inside {
        return false;
    }
    let heard = sched_yield(guest, rt, base, ());
    heard.told() == of_site(Call::Yielded, 0) && base.enter(()) == Next::Nothing
}

// Whether the home closes the site and unregisters it.
fn has_left<'a, R: Threads + Wait + Sync>(
    rt: &'a R,
    home: &mut LockedPort<'a, R>,
    base: &mut Base,
) -> bool
    requires plan { home.old.view.plan ≡ record { harts = 2; parents = 0 ∷ [] } }
    requires owner { home.old.view.owner ≡ 1 }
    requires home { is_in home.old.view.homes 1 ≡ true }
    requires open_yet { is_in home.old.view.closed 1 ≡ false }
{
    home.close_site(rt);
    if home.see_empty(rt) != Seen::Empty {
        return false;
    }
    let heard = sched_unregister(home, rt, base, ());
    heard.told() == of_site(Call::Unregistered, 0)
}

// Whether these are five entries, and complete.
fn are_five(alloc: Global, plan: &Plan, entries: &[Entry]) -> Result<bool, Fail> {
    let all = vec![in alloc; true; plan.sites() as usize]?;
    Ok(entries.len() == 5 && first_fault(alloc, plan, &all, entries)? == None)
}

#[test]
fn the_base_lends_a_hart(rt: HostRuntime) -> Result<(), Fail> {
    let plan = Plan::new(rt.alloc(), 2, &[0])?;
    let lock = Mutex::new(Ledger::new(rt.alloc(), &plan)?);
    let mut home = LockedPort::<HostRuntime>::new(rt.alloc(), &lock, &plan, 0)?;
    let mut guest = LockedPort::<HostRuntime>::new(rt.alloc(), &lock, &plan, 1)?;
    let mut base = Base::new(rt.alloc(), 1)?;
    assert!(rt; has_asked(&rt, &mut home, &mut base));
    assert!(rt; has_helped(&rt, &mut guest, &mut base));
    assert!(rt; has_left(&rt, &mut home, &mut base));
    drop(home);
    drop(guest);
    let entries = lock.into_inner().into_entries();
    assert!(rt; are_five(rt.alloc(), &plan, entries.as_slice())?);
    Ok(())
}

//! The calls that move a hart, under the port of a single hart.
ghost use Rattle.std.specs.Prelude.{◌≡◌, [], ◌∷◌};
ghost use Rattle.hart_port.specs.Plain.{first_view};

use base_sched::Base;
use hart_port::{PlainPort, Port, Seen};
use sched_api::{
    Call, Hearing, Lent, Next, Told, sched_enter, sched_reenter, sched_register, sched_unregister,
};
use std::test::Fail;
use transfer_table::Plan;
use turn_sched::Turns;

// Whether a hart isn't lent to a child that isn't registered, and the child isn't called: its context is still the next.
fn is_not_wanted(port: &mut PlainPort, child: &mut Turns<char>) -> bool
    requires plan { port.old.view.plan ≡ record { harts = 1; parents = 0 ∷ [] } }
    requires first { port.old.view ≡ first_view port.old.view.plan }
    requires child { child.old.site ≡ 1 }
{
    if child.put_last('a') != Ok(()) {
        return false;
    }
    sched_enter(port, (), child, ()) == Lent::NotWanted { shown: 0 }
        && sched_reenter(child, ()) == Next::Run('a')
        && sched_reenter(child, ()) == Next::Nothing
}

#[test]
fn a_child_is_not_wanted(rt: HostRuntime) -> Result<(), Fail> {
    let plan = Plan::new(rt.alloc(), 1, &[0])?;
    let mut port = PlainPort::new(rt.alloc(), &plan)?;
    let mut child = Turns::new(rt.alloc(), 1, 1, 0)?;
    assert!(rt; is_not_wanted(&mut port, &mut child));
    Ok(())
}

// The receipt of the base's callback for a call at site 1.
fn of_site(call: Call) -> Told {
    Told {
        call,
        child: 1,
        count: 0,
    }
}

// Whether a hart registers a child under the base once, and unregisters it.
fn comes_and_goes(port: &mut PlainPort, base: &mut Base) -> bool
    requires plan { port.old.view.plan ≡ record { harts = 1; parents = 0 ∷ [] } }
    requires first { port.old.view ≡ first_view port.old.view.plan }
{
    let Ok(heard) = sched_register(port, (), base, (), 1) else {
        return false;
    };
    if heard.told() != of_site(Call::Registered) {
        return false;
    }
    port.close_site(());
    if port.see_empty(()) != Seen::Empty {
        return false;
    }
    let heard = sched_unregister(port, (), base, ());
    heard.told() == of_site(Call::Unregistered) && sched_register(port, (), base, (), 1).is_err()
}

#[test]
fn a_hart_registers_under_the_base(rt: HostRuntime) -> Result<(), Fail> {
    let plan = Plan::new(rt.alloc(), 1, &[0])?;
    let mut port = PlainPort::new(rt.alloc(), &plan)?;
    let mut base = Base::new(rt.alloc(), 1)?;
    assert!(rt; comes_and_goes(&mut port, &mut base));
    Ok(())
}

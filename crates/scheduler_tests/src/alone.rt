//! A single hart that runs contexts in turn.
ghost use Rattle.std.specs.Prelude.{◌≡◌, [], ◌∷◌, true, false};
ghost use Rattle.hart_port.specs.PortView.{registered};
ghost use Rattle.hart_port.specs.Plain.{first_view};

use base_sched::Base;
use contexts::{
    InitRefused, Machine, Paused, Step, ctx_fini, ctx_init, ctx_pause, ctx_resume, ctx_run,
};
use hart_port::{PlainPort, Port, Seen};
use sched_api::{Next, Scheduler, sched_reenter, sched_register, sched_unregister};
use std::alloc::Global;
use std::test::Fail;
use transfer_table::{Entries, Entry, Plan, first_fault};
use turn_sched::Turns;

// A task with so many steps to do.
#[derive(Drop)]
struct Task {
    name: char,
    left: u8,
}

impl Machine for Task {
    type Nested = ();

    ghost work = { λ m. record { rest = []; awaits = false; left = m.left } };

    ghost steps = { λ _ _ _. Unit {0} };

    fn step(&mut self) -> Step<()> {
        if self.left == 0 {
            return Step::Finished;
        }
        self.left -= 1;
        Step::More
    }
}

// Puts a context with so many steps to do last.
fn put(alloc: Global, turns: &mut Turns<Paused<Task>>, name: char, left: u8) -> Result<(), Fail> {
    match ctx_init(alloc, Task { name, left }) {
        Ok(fresh) => match turns.put_last(ctx_pause(ctx_run(fresh))) {
            Ok(()) => Ok(()),
            Err(_) => Err(Fail::new("no room")),
        },
        Err(InitRefused { machine: _ }) => Err(Fail::new("out of memory")),
    }
}

// A scheduler of three contexts, with two steps, one and none to do.
fn three_contexts(alloc: Global) -> Result<Turns<Paused<Task>>, Fail> {
    let mut turns = Turns::new(alloc, 1, 3, 0)?;
    put(alloc, &mut turns, 'a', 2)?;
    put(alloc, &mut turns, 'b', 1)?;
    put(alloc, &mut turns, 'c', 0)?;
    Ok(turns)
}

// Runs a step of the first context, and puts it last unless it is done. Returns whose step it was, if there was one.
fn run_step(turns: &mut Turns<Paused<Task>>) -> Option<char> {
    let Next::Run(context) = sched_reenter(turns, ()) else {
        return None;
    };
    let mut running = ctx_resume(context);
    let name = running.machine().name;
    match running.step() {
        Step::More => match turns.put_last(ctx_pause(running)) {
            Ok(()) => Some(name),
            Err(_) => None,
        },
        _ => {
            drop(ctx_fini(running).into_machine());
            Some(name)
        }
    }
}

// Whether all contexts run a step at a time, with their turns in this order.
fn are_run(turns: &mut Turns<Paused<Task>>, names: &[char]) -> bool {
    for name in names {
        if run_step(turns) != Some(*name) {
            return false;
        }
    }
    run_step(turns) == None
}

// Whether the hart opens the site, as its home.
fn is_opened(port: &mut PlainPort, base: &mut Base) -> bool
    requires plan { port.old.view.plan ≡ record { harts = 1; parents = 0 ∷ [] } }
    requires first { port.old.view ≡ first_view port.old.view.plan }
    ensures { result ≡ true → port.new.view ≡ registered port.old.view 1 }
{
    sched_register(port, (), base, (), 1).is_ok()
}

// Whether the home of the site closes it, and returns to the base.
fn is_left(port: &mut PlainPort, base: &mut Base) -> bool
    requires plan { port.old.view.plan ≡ record { harts = 1; parents = 0 ∷ [] } }
    requires home { port.old.view ≡ registered (first_view port.old.view.plan) 1 }
{
    port.close_site(());
    if port.see_empty(()) != Seen::Empty {
        return false;
    }
    sched_unregister(port, (), base, ());
    true
}

// The entries of a hart that runs all contexts in its site. Returns a failure if the turns differ.
fn entries_of(alloc: Global, plan: &Plan, turns: &mut Turns<Paused<Task>>) -> Result<Entries, Fail>
    requires { plan.now ≡ record { harts = 1; parents = 0 ∷ [] } }
{
    let mut base = Base::new(alloc, 1)?;
    let mut port = PlainPort::new(alloc, plan)?;
    if is_opened(&mut port, &mut base)
        && are_run(turns, ['a', 'b', 'c', 'a', 'b', 'a'].as_slice())
        && is_left(&mut port, &mut base)
    {
        Ok(port.finish())
    } else {
        Err(Fail::new("other turns"))
    }
}

// Whether these are two entries, and complete. Why it counts them first: `first_fault` requires fewer than 2 ^ 32.
fn are_two(alloc: Global, plan: &Plan, entries: &[Entry]) -> Result<bool, Fail> {
    let all = vec![in alloc; true; plan.sites() as usize]?;
    Ok(entries.len() == 2 && first_fault(alloc, plan, &all, entries)? == None)
}

// Whether a hart that runs all contexts in its site makes these entries.
fn is_complete(alloc: Global, plan: &Plan) -> Result<bool, Fail>
    requires { plan.now ≡ record { harts = 1; parents = 0 ∷ [] } }
{
    let mut turns = three_contexts(alloc)?;
    let entries = entries_of(alloc, plan, &mut turns)?;
    are_two(alloc, plan, entries.as_slice())
}

#[test]
fn contexts_run_in_turn(rt: HostRuntime) -> Result<(), Fail> {
    let plan = Plan::new(rt.alloc(), 1, &[0])?;
    assert!(rt; is_complete(rt.alloc(), &plan)?);
    Ok(())
}

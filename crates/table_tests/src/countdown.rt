//! Tests by a small machine that counts down.
ghost use Rattle.std.specs.Prelude.{◌≡◌, []};

use contexts::*;
use std::alloc::{AllocError, Global};
use std::test::Fail;

// Counts down to 0. At `stop` it waits once.
#[derive(Debug, PartialEq, Eq, Drop)]
struct Countdown {
    count: u8,
    stop: u8,
    waits: bool,
}

impl Machine for Countdown {
    type Nested = u8;

    ghost work = { λ m. record { rest = []; awaits = m.waits; left = m.count } };

    ghost steps = { λ _ _ _. Unit {0} };

    fn step(&mut self) -> Step<u8> {
        if self.count == 0 {
            return Step::Finished;
        }
        self.count -= 1;
        if self.count == self.stop {
            self.waits = true;
            return Step::Nest(self.stop);
        }
        Step::More
    }
}

fn fresh(alloc: Global, count: u8, stop: u8) -> Result<Fresh<Countdown>, AllocError> {
    let machine = Countdown {
        count,
        stop,
        waits: false,
    };
    match ctx_init(alloc, machine) {
        Ok(fresh) => Ok(fresh),
        Err(InitRefused { machine: _ }) => Err(AllocError),
    }
}

// Takes a step, after a nested piece of work was supplied.
fn turn(running: &mut Running<Countdown>) -> Step<u8> {
    running.machine().waits = false;
    running.step()
}

#[test]
fn a_context_runs_to_its_end(rt: HostRuntime) -> Result<(), Fail> {
    let mut running = ctx_run(fresh(rt.alloc(), 2, 9)?);
    assert_eq!(rt; turn(&mut running), Step::More);
    assert_eq!(rt; turn(&mut running), Step::More);
    assert_eq!(rt; turn(&mut running), Step::Finished);
    assert_eq!(rt; turn(&mut running), Step::Finished);
    let machine = ctx_fini(running).into_machine();
    assert_eq!(rt; machine.count, 0);
    Ok(())
}

#[test]
fn what_lies_between_two_steps_changes_nothing(rt: HostRuntime) -> Result<(), Fail> {
    let mut running = ctx_run(fresh(rt.alloc(), 4, 1)?);
    assert_eq!(rt; turn(&mut running), Step::More);
    let mut running = ctx_resume(ctx_pause(running));
    assert_eq!(rt; running.machine().count, 3);
    assert_eq!(rt; turn(&mut running), Step::More);
    let mut running = ctx_resume(ctx_unblock(ctx_block(running)));
    assert_eq!(rt; turn(&mut running), Step::Nest(1));
    assert_eq!(rt; turn(&mut running), Step::More);
    assert_eq!(rt; turn(&mut running), Step::Finished);
    let machine = ctx_fini(running).into_machine();
    assert_eq!(rt; machine.stop, 1);
    Ok(())
}

#[test]
fn a_context_is_abandoned_or_dropped(rt: HostRuntime) -> Result<(), Fail> {
    let alloc = rt.alloc();
    assert_eq!(rt; fresh(alloc, 1, 0)?.abandon().count, 1);
    assert_eq!(rt; ctx_run(fresh(alloc, 2, 0)?).abandon().count, 2);
    assert_eq!(rt; ctx_pause(ctx_run(fresh(alloc, 3, 0)?)).abandon().count, 3);
    assert_eq!(rt; ctx_block(ctx_run(fresh(alloc, 4, 0)?)).abandon().count, 4);
    drop(ctx_pause(ctx_run(fresh(alloc, 5, 0)?)));
    drop(ctx_block(ctx_run(fresh(alloc, 6, 0)?)));
    Ok(())
}

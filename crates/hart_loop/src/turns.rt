//! The number of tasks that a hart may still get, if nothing else counts them.
ghost use Rattle.std.specs.Prelude.{◌<◌};

use std::sync::Wait;

/// Takes one turn. Spins forever if none is left, which no run reaches.
pub fn take_turn<R: Wait>(rt: &R, turns: &mut u64)
    ensures { turns.new < turns.old }
{
    if *turns == 0 {
        wait_for_ever(rt);
    }
    *turns -= 1;
}

// Spins forever.
fn wait_for_ever<R: Wait>(rt: &R)
    ensures { ⊥ }
{
    for _ in rt.forever() {}
    unreachable!()
}

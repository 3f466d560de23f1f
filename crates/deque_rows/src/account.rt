//! The invariant of a deque, and what its calls report.
ghost use Rattle.std.specs.Prelude.{◌≡◌, ◌-◌, ◌+◌, [], ◌++◌};

use crossbeam_deque::protocol::{Join, Lesson, Outcome, Protocol, Split};
use std::collections::LinkedList;

/// What a pass of a deque knows. It is ghost: no value of it exists at run time.
pub struct Log {
    /// Its parts of the right to know the whole deque. All passes together have 64.
    ///
    /// Why: a deque has one part for each hart as a thief, also for its own hart, and the rest for the home. A log with all
    /// parts knows the whole deque, so `settle` first returns all stealing ends to the homes.
    pub parts: u64,
    /// Whether it is the pass of the deque's own hart.
    pub is_home: bool,
    /// What the home pushed, in order.
    pub pushed: LinkedList<u32>,
    /// What the home popped, in order.
    pub popped: LinkedList<u32>,
    /// What the home pushed and didn't pop.
    pub kept: LinkedList<u32>,
    /// What this pass's steals gave, in order.
    pub stolen: LinkedList<u32>,
}

/// The invariant of a deque.
pub struct Account;

impl Protocol<u32, Log> for Account {
    ghost use Rattle.std.specs.Prelude.{true, false};
    ghost use Rattle.deque_rows.specs.Account.{blank, idle, RowStands};

    ghost holds = { RowStands };

    ghost first = { blank 64 true };

    ghost guest = { idle };
}

/// A pass with a part of another's, and a pass that takes another in.
pub struct Share;

impl Split<Log> for Share {
    ghost use Rattle.std.specs.Prelude.{◌-◌, false};
    ghost use Rattle.deque_rows.specs.Account.{blank};

    ghost left = { λ v. record v { parts = v.parts - 1 } };

    ghost right = { λ _. blank 1 false };
}

impl Join<Log> for Share {
    ghost use Rattle.deque_rows.specs.Account.{joined, idle};

    ghost both = { joined };

    ghost spent = { idle };
}

/// What a push reports.
pub struct Pushed;

impl Outcome<u32, Log> for Pushed {
    ghost use Rattle.std.specs.Prelude.{◌≡◌};
    ghost use Rattle.deque_rows.specs.Account.{after_push};

    ghost then = { λ v xs w. w ≡ after_push v xs };
}

/// What a pop reports.
pub struct Popped;

impl Outcome<u32, Log> for Popped {
    ghost use Rattle.deque_rows.specs.Account.{Pops, HeldAtMost};

    ghost then = { Pops };

    ghost empty = { HeldAtMost 0 };
}

/// What a steal reports.
pub struct Stole;

impl Outcome<u32, Log> for Stole {
    ghost use Rattle.std.specs.Prelude.{◌≡◌};
    ghost use Rattle.deque_rows.specs.Account.{after_steal, HeldAtMost};

    ghost then = { λ v xs w. w ≡ after_steal v xs };

    ghost empty = { HeldAtMost 1 };
}

/// What is known of a deque when all passes are back in one.
pub struct AllPassesBack;

impl Lesson<u32, Log> for AllPassesBack {
    ghost use Rattle.deque_rows.specs.Account.{Determines};

    ghost fact = { Determines };
}

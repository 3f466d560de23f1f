//! The amounts by which entries increase the first word, and the number of entries that it counts.
ghost use Rattle.std.specs.Prelude.{◌≡◌, ◌≤◌, ℕ};
ghost use Rattle.board_rule.specs.Layouts.{Adds, entries_of};
ghost use Rattle.lent_board.specs.Amounts.{IsDigit};

use crate::words::{LENGTH_UNIT, digit};
use board_rule::{Laid, Layout};

/// The amount if the hart goes from its owner to the site, whose number isn't smaller.
pub(crate) fn rise<L: Laid>(hart: u8, owner: u16, site: u16) -> u64
    requires digit { IsDigit L.layout hart }
    requires up { owner ≤ site }
    ensures { Adds L.layout owner hart site result }
{
    match L::layout() {
        Layout::Owners => LENGTH_UNIT + digit(site - owner, hart),
        Layout::Guests => 1,
    }
}

/// The amount if the hart goes from its owner to the site `above`, whose number isn't greater.
pub(crate) fn fall<L: Laid>(hart: u8, owner: u16, above: u16) -> u64
    requires digit { IsDigit L.layout hart }
    requires down { above ≤ owner }
    requires few { owner ≤ 4095 }
    ensures { Adds L.layout owner hart above result }
{
    match L::layout() {
        Layout::Owners => LENGTH_UNIT - digit(owner - above, hart),
        Layout::Guests => 1,
    }
}

/// The amount if a hart stays in its owner.
pub(crate) fn stay<L: Laid>() -> u64
    ensures { (owner hart : ℕ) → Adds L.layout owner hart owner result }
{
    match L::layout() {
        Layout::Owners => LENGTH_UNIT,
        Layout::Guests => 1,
    }
}

/// The number of entries that the first word counts.
pub(crate) fn entries_of<L: Laid>(word: u64) -> u64
    ensures { result ≡ entries_of L.layout word }
{
    match L::layout() {
        Layout::Owners => word / LENGTH_UNIT,
        Layout::Guests => word,
    }
}

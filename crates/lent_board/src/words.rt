//! A first word that holds the owners, as a number.
ghost use Rattle.std.specs.Prelude.{◌≡◌, ◌<◌, ◌≤◌, ◌*◌, ◌^◌};
ghost use Rattle.board_rule.specs.Words.{owner_unit, others_at};

use hart_port::other_hart;

/// The amount by which each entry increases it.
pub(crate) const LENGTH_UNIT: u64 = 1 << 48;

/// The change of the hart's digit.
pub(crate) fn digit(change: u16, hart: u8) -> u64
    requires { hart < 4 }
    ensures value { result ≡ change * owner_unit hart }
    ensures small { result ≤ change * owner_unit 3 }
{
    let change = change as u64;
    match hart {
        0 => change,
        1 => change * 4096,
        2 => change * 16777216,
        _ => change * 68719476736,
    }
}

/// Whether another hart, of the first `harts` harts, is in the site.
pub(crate) fn is_held(word: u64, harts: u8, hart: u8, site: u16) -> bool
    ensures { result ≡ others_at harts word hart site }
{
    match other_hart(word, harts, hart, site) {
        Some(_) => true,
        None => false,
    }
}

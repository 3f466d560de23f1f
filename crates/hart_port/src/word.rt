//! The words that a port shows.
ghost use Rattle.std.specs.Prelude.{◌≡◌, ◌≢◌, ℕ, IfSome, IfNone};
ghost use Rattle.transfer_table.specs.Plan.{IsSite};
ghost use Rattle.transfer_table.specs.Table.{row};
ghost use Rattle.hart_port.specs.Count.{Rose};
ghost use Rattle.hart_port.specs.Words.{site_word, stage_bits, closing_bit, is_claimed, is_closed, is_wanted, owner_field, IsOther};

use transfer_table::{Board, Stage};

/// The claimed bit of a site's word.
pub const CLAIMED: u64 = 1;

/// The closing bit: no further hart may enter.
pub const CLOSING: u64 = 2;

/// The closed bit: the site is gone.
pub const CLOSED: u64 = 4;

/// One wish, of the 255 for which a site's word has room.
pub const WISH: u64 = 256;

// The claimed and the closed bit of a site.
fn stage_bits(stage: Stage) -> u64
    ensures { result ≡ stage_bits stage }
{
    match stage {
        Stage::New => 0,
        Stage::Live => CLAIMED,
        Stage::Gone => CLAIMED + CLOSED,
    }
}

// The closing bit of a site.
fn closing_bit(closing: bool) -> u64
    ensures { result ≡ closing_bit closing }
{
    if closing { CLOSING } else { 0 }
}

// The word of a site of the board's plan.
pub(crate) fn site_word(board: &Board, site: u16, closing: bool) -> u64
    requires { IsSite board.now.plan site }
    ensures { result ≡ site_word (row board.now.state site) closing }
{
    stage_bits(board.stage(site)) + closing_bit(closing) + WISH * u64::from(board.wishes(site))
}

// Counts one more, up to the last value.
pub(crate) fn raise(count: &mut u64)
    ensures { Rose count.old count.new }
{
    *count = count.saturating_add(1);
}

/// Whether a site's word has the claimed bit.
pub fn is_claimed(word: u64) -> bool
    ensures { result ≡ is_claimed word }
{
    word % 2 == 1
}

/// Whether a site's word has the closed bit.
pub fn is_closed(word: u64) -> bool
    ensures { result ≡ is_closed word }
{
    word / CLOSED % 2 == 1
}

/// Whether a site's word shows a wish that a hart may meet.
pub fn is_wanted(word: u64) -> bool
    ensures { result ≡ is_wanted word }
{
    is_claimed(word) && word / CLOSING % 2 != 1 && !is_closed(word) && word / WISH % 256 != 0
}

/// The least of so many harts, other than this one, whose owner is the site by the board word, which has room for the
/// owners of four.
pub fn other_hart(word: u64, harts: u8, hart: u8, site: u16) -> Option<u8>
    ensures some { IfSome result (λ g. IsOther harts hart g × (owner_field word g ≡ site)) }
    ensures none { IfNone result ((g : ℕ) → IsOther harts hart g → owner_field word g ≢ site) }
{
    let mut rest = word;
    for other in 0..harts {
        if other != hart && rest % 4096 == site as u64 {
            return Some(other);
        }
        rest /= 4096;
    }
    None
}

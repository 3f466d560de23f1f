//! The invariant of the words, and what each kind of step reports.
use crate::seat_view::SeatView;
use atomic_table::{Join, Play, Split, TableRule};

/// The invariant of the words, over the members of each counter.
pub struct ClaimRule;

impl TableRule<u8, SeatView, Vec<u8>> for ClaimRule {
    ghost use Rattle.claim_words.specs.Claims.{ClaimsStand, fresh};

    ghost holds = { λ k s. ClaimsStand k.items s };

    ghost first = { λ k. fresh 256 k.items };
}

/// A load of a counter's word.
pub struct LookPlay;

impl Play<u8, SeatView> for LookPlay {
    ghost use Rattle.std.specs.Prelude.{◌≡◌};
    ghost use Rattle.claim_words.specs.Claims.{looked};

    ghost then = { λ s me n after. after ≡ (looked me.0 s.word n, me.1) };
}

/// The addition by which a number is drawn.
pub struct DrawPlay;

impl Play<u8, SeatView> for DrawPlay {
    ghost use Rattle.std.specs.Prelude.{◌≡◌};
    ghost use Rattle.claim_words.specs.Claims.{drawn};

    ghost then = { λ s me n after. after ≡ (drawn me.0 s.word n, me.1) };
}

/// A seat with a part of another's, and a seat that takes another in.
pub struct Share;

impl Split<SeatView> for Share {
    ghost use Rattle.std.specs.Prelude.{◌-◌};
    ghost use Rattle.claim_words.specs.Claims.{fresh};

    ghost left = { λ v. record v { parts = v.parts - 1 } };

    ghost right = { λ v. fresh 1 v.counts };
}

impl Join<SeatView> for Share {
    ghost use Rattle.std.specs.Prelude.{[]};
    ghost use Rattle.claim_words.specs.Claims.{joined, fresh};

    ghost both = { joined };

    ghost spent = { fresh 0 [] };
}

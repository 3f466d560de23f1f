//! The two layouts.
ghost use Rattle.board_rule.specs.declared.layout.Layout.TheVariants.{Owners, Guests};

use board_rule::{Laid, Layout};

/// The first word holds each hart's owner, for at most four harts.
#[derive(Drop)]
pub struct ByOwners;

impl Laid for ByOwners {
    ghost layout = { Owners };

    fn layout() -> Layout {
        Layout::Owners
    }
}

/// The first word is the number of entries, and a site's word counts its guests.
#[derive(Drop)]
pub struct ByGuests;

impl Laid for ByGuests {
    ghost layout = { Guests };

    fn layout() -> Layout {
        Layout::Guests
    }
}

//! The number of a site's guests (harts inside it that aren't its home), and how entries change it.
//!
//! The boards of `lent_board` count guests in a site's word by this law. Begin with `specs/Guests.antt`; `board_tests` has
//! examples of the counts.

ghost use Rattle.transfer_table.specs.Guests.{GuestsChange};

/// An entry changes the guests of its own site alone, and only an Enter and a Yield do.
pub fn guests_change()
    ensures { GuestsChange }
{}

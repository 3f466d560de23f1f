//! The kinds of step. `specs/Plays.antt` defines the effect of each on its seat's view. The definition also notes the word
//! found, so no kind can note another word.
ghost use Rattle.std.specs.Prelude.{ℕ};

use atomic_table::{Join, Play, Split};
use board_rule::{Laid, View};
use std::marker::{Brand, PhantomData};

/// Sets a site's claimed bit.
pub(crate) struct Claim;

impl Play<(), View> for Claim {
    ghost use Rattle.lent_board.specs.Plays.{claims};

    ghost then = { claims };
}

/// Makes the Register of the claimed site. The entry's index is inside the journal, and the hart had made neither Register nor
/// Request of that site.
pub(crate) struct MakeRegister<L: Laid> {
    of: PhantomData<L>,
}

impl<L: Laid> Play<(), View> for MakeRegister<L> {
    ghost use Rattle.lent_board.specs.Plays.{makes_register};

    ghost then = { makes_register L.layout };
}

/// Makes the Skip of the claimed site.
pub(crate) struct MakeSkip<L: Laid> {
    of: PhantomData<L>,
}

impl<L: Laid> Play<(), View> for MakeSkip<L> {
    ghost use Rattle.lent_board.specs.Plays.{makes_skip};

    ghost then = { makes_skip L.layout };
}

/// The number of harts that a request is for. Why a ghost member, which each call of `request` picks: a step shows its seat
/// only the operands and the view.
pub(crate) trait Asked {
    ghost count: { ℕ };
}

impl Asked for Brand {
    ghost count = { 0 };
}

/// Makes a Request of the owner.
pub(crate) struct MakeRequest<L: Laid, A: Asked> {
    of: PhantomData<L>,
    asked: PhantomData<A>,
}

impl<L: Laid, A: Asked> Play<(), View> for MakeRequest<L, A> {
    ghost use Rattle.lent_board.specs.Plays.{makes_request};

    ghost then = { makes_request L.layout A.count };
}

/// Makes the Enter of the site to which the hart is reserved.
pub(crate) struct MakeEnter<L: Laid> {
    of: PhantomData<L>,
}

impl<L: Laid> Play<(), View> for MakeEnter<L> {
    ghost use Rattle.lent_board.specs.Plays.{makes_enter};

    ghost then = { makes_enter L.layout };
}

/// Makes a Yield of the owner.
pub(crate) struct MakeYield<L: Laid> {
    of: PhantomData<L>,
}

impl<L: Laid> Play<(), View> for MakeYield<L> {
    ghost use Rattle.lent_board.specs.Plays.{makes_yield};

    ghost then = { makes_yield L.layout };
}

/// Makes an Unregister of the owner.
pub(crate) struct MakeUnregister<L: Laid> {
    of: PhantomData<L>,
}

impl<L: Laid> Play<(), View> for MakeUnregister<L> {
    ghost use Rattle.lent_board.specs.Plays.{makes_unregister};

    ghost then = { makes_unregister L.layout };
}

/// Writes the entry at its index.
pub(crate) struct Jot;

impl Play<(), View> for Jot {
    ghost use Rattle.lent_board.specs.Plays.{jots};

    ghost then = { jots };
}

/// What follows an entry on its site's word: a credit, a landing, a leave or a seal.
pub(crate) struct Follow;

impl Play<(), View> for Follow {
    ghost use Rattle.lent_board.specs.Plays.{follows};

    ghost then = { follows };
}

/// Reads a site's word.
pub(crate) struct Glance;

impl Play<(), View> for Glance {
    ghost use Rattle.lent_board.specs.Plays.{glances};

    ghost then = { glances };
}

/// Checks whether a site is gone.
pub(crate) struct SeeGone;

impl Play<(), View> for SeeGone {
    ghost use Rattle.lent_board.specs.Plays.{sees_gone};

    ghost then = { sees_gone };
}

/// Checks whether the owner's word has a guest.
pub(crate) struct SeeDrained<L: Laid> {
    of: PhantomData<L>,
}

impl<L: Laid> Play<(), View> for SeeDrained<L> {
    ghost use Rattle.lent_board.specs.Plays.{sees_drained};

    ghost then = { sees_drained L.layout };
}

/// Checks by a first word that holds the owners whether another hart is in the owner.
pub(crate) struct SeeEmpty;

impl Play<(), View> for SeeEmpty {
    ghost use Rattle.lent_board.specs.Plays.{sees_empty};

    ghost then = { sees_empty };
}

/// Takes one from a site's want and adds one to its guests, if the word is the one that was read.
pub(crate) struct Reserve;

impl Play<(), View> for Reserve {
    ghost use Rattle.lent_board.specs.Plays.{reserves};

    ghost then = { reserves };
}

/// Sets the owner's closing bit.
pub(crate) struct Shut;

impl Play<(), View> for Shut {
    ghost use Rattle.lent_board.specs.Plays.{shuts};

    ghost then = { shuts };
}

/// Splits the next hart's seat off hart 0's.
pub(crate) struct Deal;

impl Split<View> for Deal {
    ghost use Rattle.board_rule.specs.Views.{split_left, split_right};

    ghost left = { split_left };

    ghost right = { split_right };
}

/// Joins another hart's seat into hart 0's.
pub(crate) struct Gather;

impl Join<View> for Gather {
    ghost use Rattle.board_rule.specs.Views.{joined_view, spent_view};

    ghost both = { joined_view };

    ghost spent = { spent_view };
}

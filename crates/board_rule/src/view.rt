//! What a seat knows. These types are ghost: no value of them exists at run time. A clause reads an array as a list, of any
//! length.
use crate::entries::{Drawn, Ended};
use transfer_table::{Entry, Plan};

/// The kinds of step whose word is noted.
pub enum LookKind {
    /// The claim of a site.
    Claim,
    /// A load of a site's word.
    Look,
    /// The exchange by which a hart is reserved to a site.
    Reserve,
    /// A load of the board's first word.
    LookAtBoard,
}

/// A word that was read.
pub struct Look {
    /// The site, or 0 for the board's first word.
    pub site: u16,
    pub kind: LookKind,
    pub found: u64,
}

/// What a seat is in the middle of, between the steps of a call.
pub enum Doing {
    /// Nothing: no call is under way.
    Idle,
    /// It has claimed the site, and its Register is still to be made.
    Claiming(u16),
    /// It has made the Request of a number of harts for the site, and is to add this number to the site's want.
    Crediting(u16, u8),
    /// It is reserved to the site, and its Enter is still to be made.
    Reserved(u16),
    /// It has made its Enter of the site, and is to take itself from the harts on their way in.
    Landing(u16),
    /// It has made its Yield of the site, and is to take itself from the site's guests.
    Leaving(u16),
    /// It has made its Unregister or its Skip of the site, and is to set the site's closed bit.
    Sealing(u16),
}

/// The sets of sites that a seat knows of, each a list with a flag for the base and for each site.
pub struct Marks {
    /// The live sites whose home is this hart.
    pub homes: [bool; 0],
    /// Those of its homes that it closed.
    pub closed: [bool; 0],
    /// Those of these whose word it has seen without a guest since.
    pub drained: [bool; 0],
    /// Those of these that it has seen without another hart inside since, and since it last saw a
    /// child gone.
    pub empty: [bool; 0],
    /// The sites that it has seen gone.
    pub gone: [bool; 0],
}

/// What a seat knows. It has the sets and the kinds of `Doing` of both layouts; only a board by owners has `Doing::Landing`.
pub struct View {
    pub plan: Plan,
    pub hart: u8,
    /// The site that holds the hart; 0 is the base.
    pub owner: u16,
    /// The entries that the hart made, in order.
    pub mine: [Entry; 0],
    /// The journal index that it reserved for each of them.
    pub places: [u64; 0],
    pub drawn: Option<Drawn>,
    pub doing: Doing,
    pub marks: Marks,
    /// The words that it read, in order.
    pub looks: [Look; 0],
    /// In hart 0's view alone: how many seats were made, and the harts that were joined into it.
    pub made: u8,
    pub ended: [Ended; 0],
}

//! The entries of a journal, the row that the state has for a site, and the refusals of an entry.
ghost use Rattle.std.specs.Prelude.{◌≡◌};

/// One event of the table: what a hart does at a site.
#[derive(Clone, Copy, Debug, PartialEq, Eq)]
pub enum Entry {
    /// The hart, whose owner is the site's parent, makes the site live and is its home.
    Register { hart: u8, site: u16 },
    /// The site's home requests `count` more harts.
    Request { hart: u8, site: u16, count: u8 },
    /// The hart comes from the parent into the live site and meets one of its wishes.
    Enter { hart: u8, site: u16 },
    /// A hart that isn't the site's home goes back to the parent.
    Yield { hart: u8, site: u16 },
    /// The home, alone in the site, goes back to the parent, and the site is gone.
    Unregister { hart: u8, site: u16 },
    /// The hart, whose owner is the site's parent, skips the new site: the site and all its descendants are gone, and no hart
    /// moves.
    Skip { hart: u8, site: u16 },
}

/// The stage of a site.
#[derive(Clone, Copy, Debug, PartialEq, Eq)]
pub enum Stage {
    /// It hasn't been registered.
    New,
    /// It is registered, and not yet unregistered.
    Live,
    /// It is unregistered, or it was skipped, by itself or with a site around it.
    Gone,
}

impl Stage {
    ghost use Rattle.transfer_table.specs.Table.{is_gone};

    pub(crate) fn is_gone(self) -> bool
        ensures { result ≡ is_gone self }
    {
        matches!(self, Stage::Gone)
    }
}

/// The table's state of one site.
#[derive(Clone, Copy, Debug, PartialEq, Eq)]
pub struct Row {
    pub stage: Stage,
    /// The hart that registered the site.
    pub home: Option<u8>,
    /// The number of requested harts that haven't entered.
    pub wishes: u8,
    /// The number of harts requested in all.
    pub asked: u8,
}

/// Why the table refuses an entry: the first cause in this order.
#[derive(Clone, Copy, Debug, PartialEq, Eq)]
pub enum NotAdmitted {
    /// The plan has no such hart.
    NoSuchHart,
    /// The plan has no such site.
    NoSuchSite,
    /// The hart's owner, given here, isn't the one that the entry needs.
    NotOwner { owner: u16 },
    /// The site isn't new.
    NotNew,
    /// The site isn't live.
    NotLive,
    /// The site's home, given here, is another hart.
    NotHome { home: u8 },
    /// The site has no unmet wish.
    NoWish,
    /// With this count the site would have requested more harts than all but its home. `asked` is the sum of its requests so
    /// far.
    TooManyWished { asked: u8 },
    /// The hart is the site's home, which doesn't yield.
    IsHome,
    /// Another hart's owner is the site. The least such hart is given.
    HartInside { hart: u8 },
    /// A child of the site isn't gone. The least such child is given.
    ChildLeft { site: u16 },
    /// The count is 0.
    NoCount,
}

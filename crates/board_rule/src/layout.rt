//! The layouts of the first word and of the words of the sites.
ghost use Rattle.std.specs.Prelude.{◌≡◌};

/// What the first word of a board shows, and which harts a site's word counts.
pub enum Layout {
    /// The first word has the number of entries and each hart's owner, so there are at most four harts.
    /// A site's word counts the harts on their way in.
    Owners,
    /// The first word is the number of entries. A site's word counts the harts inside that aren't its
    /// home, and those on their way in or out.
    Guests,
}

/// A layout, as a type.
pub trait Laid {
    ghost use Rattle.board_rule.specs.declared.layout.Layout.{Layout};

    ghost layout: { Layout };

    /// The layout.
    fn layout() -> Layout
        ensures { result ≡ layout };
}

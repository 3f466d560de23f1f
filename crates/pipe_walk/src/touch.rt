//! Touches of cells by members.
ghost use Rattle.std.specs.Prelude.{◌≡◌};
ghost use Rattle.pipe_walk.specs.Inside.Members.{joined, touch_by};

use crate::members::Members;

/// The members of a phase that read a cell, and those that changed it.
#[derive(Clone, Copy, PartialEq, Eq, Debug, Drop)]
pub(crate) struct Touch {
    pub(crate) read: Members,
    pub(crate) changed: Members,
}

/// No member touched it.
pub(crate) const UNTOUCHED: Touch = Touch {
    read: Members::NoMember,
    changed: Members::NoMember,
};

impl Touch {
    /// The touch of a member that changes a cell, or else reads it.
    pub(crate) fn by(member: usize, writes: bool) -> Touch
        ensures { result ≡ touch_by member writes }
    {
        let own = Members::Between {
            first: member,
            last: member,
        };
        if writes {
            Touch {
                read: Members::NoMember,
                changed: own,
            }
        } else {
            Touch {
                read: own,
                changed: Members::NoMember,
            }
        }
    }

    /// The touches of both.
    pub(crate) fn with(self, other: Touch) -> Touch
        ensures { result ≡ joined self other }
    {
        Touch {
            read: self.read.with(other.read),
            changed: self.changed.with(other.changed),
        }
    }
}

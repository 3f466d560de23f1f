//! Members of a `team`.
ghost use Rattle.std.specs.Prelude.{◌≡◌};
ghost use Rattle.pipe_walk.specs.Inside.Members.{joined_members, starts_below, last_of};

/// The members of a `team` that read or changed a cell: none, or some from the first to the last.
#[derive(Clone, Copy, PartialEq, Eq, Debug, Drop)]
pub(crate) enum Members {
    NoMember,
    Between { first: usize, last: usize },
}

impl Members {
    /// The members of both sets.
    pub(crate) fn with(self, other: Members) -> Members
        ensures { result ≡ joined_members self other }
    {
        match (self, other) {
            (Members::NoMember, _) => other,
            (_, Members::NoMember) => self,
            (
                Members::Between { first, last },
                Members::Between {
                    first: low,
                    last: high,
                },
            ) => Members::Between {
                first: first.min(low),
                last: last.max(high),
            },
        }
    }

    /// Whether some of them is below this one.
    pub(crate) fn starts_below(self, member: usize) -> bool
        ensures { result ≡ starts_below member self }
    {
        match self {
            Members::NoMember => false,
            Members::Between { first, .. } => first < member,
        }
    }

    /// The last of them; 0 also if there is none, since no member is below member 0.
    pub(crate) fn last(self) -> usize
        ensures { result ≡ last_of self }
    {
        match self {
            Members::NoMember => 0,
            Members::Between { last, .. } => last,
        }
    }
}

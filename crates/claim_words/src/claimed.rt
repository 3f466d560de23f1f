//! The result of a claim.

/// The result of a claim.
#[derive(Clone, Copy, Debug, PartialEq, Drop)]
pub enum Claimed {
    /// This member, which no other seat claims.
    Member(u8),
    /// Each member of the claim counter is claimed: its word is at least the number of members.
    NoneLeft { shown: u64 },
}

//! The result of a deposit, without what it hands out.

use join_book::Deposit;

/// The result of a deposit.
#[derive(Clone, Copy, Debug, PartialEq, Eq)]
pub enum Came {
    /// The piece is kept.
    Kept,
    /// The piece's slot was filled or failed.
    Double,
    /// No slot has the piece's job.
    Stranger,
}

/// The result of a deposit, without the piece that it returns.
pub fn outcome_of(deposit: Deposit) -> Came {
    match deposit {
        Deposit::Kept => Came::Kept,
        Deposit::Double(_) => Came::Double,
        Deposit::Stranger(_) => Came::Stranger,
    }
}

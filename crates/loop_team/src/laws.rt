//! The account of claims, for all seats of a table.
pub use claim_words::laws::claimed;

//! Books: the pieces of one phase of a construct, collected as they come.
//!
//! Pools and barriers each have a book, for authors of schedulers. A book has a slot for each job. It takes a piece only into
//! the slot of the piece's job, and merges all when each slot is filled or failed. Begin with `Book` in `book.rt`; the tests of
//! `piece_tests` fill books.
#![tactic(auto)]

mod book;
mod place;

pub use book::{Book, Deposit};

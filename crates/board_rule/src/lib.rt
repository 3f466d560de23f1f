//! The invariant of a board's words, and a law for each kind of step.
//!
//! A board has one word for the whole board, a word for each site, and a word for each index of its journal. `words.rt` has the
//! encodings of sites and entries as words, and `specs/Places.antt` the index of each word. There are two layouts (`Layout`);
//! `specs/Layouts.antt` defines all in which they differ. Harts change the words by single atomic steps.
//! `specs/Rule.antt` defines the invariant, which holds between any two steps of any harts: the words, with what each hart's
//! seat knows, represent a legal run of the table. `specs/Views.antt` defines how each kind of step changes what its seat
//! knows. `laws` state that each kind keeps the invariant, and which kinds append an entry. `docs/BOARD.md` explains the
//! protocol.
//!
//! `lent_board` makes the steps, with the encodings of this crate. Begin with `BoardRule` in `rule.rt` and `View` in
//! `view.rt`. Then read the laws of one transfer in `laws.rt`, such as `claim_keeps` and `register_appends` of a register.
//!
//! # Example
//!
//! From `is_spelled` in `board_tests/src/row.rt`: the words of a journal, each `word_of` its entry. Hart 0 registers site 1 and
//! requests one hart, hart 1 enters and yields, and hart 0 unregisters the site.
//!
//! ```text
//! let spelled = [65537, 65794, 65547, 65548, 65541];
//! let mut same = true;
//! for place in 0..5 {
//!     same = same && board.peek(2 + place) == spelled[place];
//! }
//! ```
#![tactic(auto)]

mod entries;
pub mod laws;
mod layout;
mod rule;
mod view;
mod words;

pub use entries::{Drawn, Ended};
pub use layout::{Laid, Layout};
pub use rule::BoardRule;
pub use view::{Doing, Look, LookKind, Marks, View};
pub use words::{GUEST, entry_of, word_of};

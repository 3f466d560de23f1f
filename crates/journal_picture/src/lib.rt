//! A journal as a picture: where each hart was from when to when, and at each place how many wishes are unmet and how many
//! harts are idle.
//!
//! The height of a bar shows how deep its site is and the outline shows the kind, so no colour is needed. A long journal is
//! drawn in rows. The caller passes the verdict as text, so a picture needs no language and no audit. `picture_call` draws the
//! journal of a run by this crate. Begin with `stays_of` in `stay.rt` and `text_picture` in `text.rt`.
//!
//! # Example
//!
//! A site of the author's own kind on one hart, from `picture_tests/src/kinds.rt`. `ONE` is a list of two entries.
//!
//! ```text
//! let plan = Plan::new(alloc, 1, &[0])?;
//! let Some(kind) = Kind::named(LONGEST) else {
//!     return Err(Fail::new("no kind"));
//! };
//! let shapes = [Shape {
//!     kind,
//!     phased: true,
//!     line: 7,
//! }];
//! let text = text_picture(alloc, &plan, &[true], &shapes, &ONE, b"legal 2\n")?;
//! ```
#![tactic(auto)]

mod axis;
mod bars;
mod drawing;
mod drawn;
mod faults;
mod harts;
mod lanes;
pub mod laws;
mod marks;
mod scale;
mod shape;
mod stay;
mod strip;
mod svg;
mod table;
mod text;
mod travels;
mod tree;
mod visits;
mod words;

pub use shape::{Kind, Shape};
pub use stay::{Stay, stays_of};
pub use strip::{Figures, strip_of};
pub use svg::svg_picture;
pub use text::text_picture;
pub use travels::{Travels, travels_of};
pub use visits::{Visits, visits_of};

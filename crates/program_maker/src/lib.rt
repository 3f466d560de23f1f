//! Generates a large program from a seed: a stencil over a square grid whose edges meet, with pools inside teams inside a pool.
//!
//! The command `make` of `lithe` runs the printed text of this program. Sizes are 1 to 40, and a seed and a size define one
//! program, by `specs/Made.antt`. Begin with `generate` in `stencil.rt`, which makes the tree. `made_text` in `text.rt` prints
//! it, in at most 65,536 bytes, and the law `made_text_spells` states that the text spells the tree.
//!
//! # Example
//!
//! From `all_forty_sizes_are_accepted` in `command_tests/src/made.rt`, with seed 7 and four harts.
//!
//! ```text
//! for size in 1..41u8 {
//!     let program = generate(rt.alloc(), 7, size)?;
//!     let accepted = check(rt.alloc(), &program, 4)?;
//!     assert_eq!(rt; accepted.plan().sites(), u16::from(size) * 4 + 18);
//!     assert_eq!(rt; accepted.pieces(), u32::from(size) * 8 + 48);
//! }
//! ```
#![tactic(auto)]

mod build;
mod draw;
mod laws;
mod stencil;
mod text;

pub use laws::made_text_spells;
pub use stencil::generate;
pub use text::made_text;

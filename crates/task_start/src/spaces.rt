//! The number of a text's spaces.
ghost use Rattle.std.specs.Prelude.{◌≡◌, IfErr, alloc_error};

use std::alloc::{AllocError, Global};
use tasks::{Harts, Task, TaskKind, run_alone};

/// Counts the spaces of a text. The text may be cut into halves, and each half again, `cuts` times.
#[derive(Drop)]
pub struct Spaces<'p> {
    pub text: &'p [u8],
    pub cuts: u8,
}

impl<'p> TaskKind for Spaces<'p> {
    type Output = usize;

    type Error = AllocError;

    ghost gives = { λ _ _. Unit {0} };

    ghost fails = { λ _ _. ⊥ };

    ghost depth = { λ task. task.cuts };
}

impl<'p> Task for Spaces<'p> {
    fn run<H: Harts<Self>>(self, alloc: Global, harts: &mut H) -> Result<usize, AllocError> {
        let Spaces { text, cuts } = self;
        if cuts == 0 {
            return Ok(text.iter().filter(|byte| **byte == b' ').count());
        }
        let (front, back) = text.split_at(text.len() / 2);
        let mut halves = Vec::with_capacity(alloc, 2)?;
        halves.push_reserved(Spaces {
            text: front,
            cuts: cuts - 1,
        });
        halves.push_reserved(Spaces {
            text: back,
            cuts: cuts - 1,
        });
        let counts = harts.fork_join(alloc, halves)?;
        Ok(
            counts
                .iter()
                .fold(0usize, |sum, count| sum.wrapping_add(*count)),
        )
    }
}

/// Counts the spaces of a text on one hart, in eight parts.
///
/// # Errors
///
/// An allocation failure.
pub fn count_spaces(alloc: Global, text: &[u8]) -> Result<usize, AllocError>
    ensures { IfErr result (λ error. error ≡ alloc_error) }
{
    run_alone(alloc, Spaces { text, cuts: 3 })
}

//! Whether pieces touch different cells, by their recorded stretches.
ghost use Rattle.std.specs.Prelude.{◌≡◌, ℕ, ◌<◌};
ghost use Rattle.std.specs.Bool.{OnTrue, OnFalse};
ghost use Rattle.touch_bounds.specs.Touches.{touch_at};
ghost use Rattle.touch_bounds.specs.Pieces.{tables_of, IsClearOf, AreClear};

use crate::touch::{Touch, UNTOUCHED};

/// The recorded stretches of a piece of a round, for each array.
#[derive(Drop)]
pub(crate) struct Piece {
    pub(crate) touches: Vec<Touch>,
}

// The recorded stretches of an array. After the last array there are none.
fn touch_at(touches: &[Touch], number: usize) -> Touch
    ensures { result ≡ touch_at touches.now number }
{
    if number < touches.len() {
        touches[number]
    } else {
        UNTOUCHED
    }
}

// Whether the touches of a piece on an array clash with those of another one of these pieces. An array without touches never
// clashes.
#[tactic(auto, using(crate::proofs::PieceLemmas::untouched_clear))]
fn clashes_with_any(touch: Touch, others: &[Piece], number: usize) -> bool
    ensures clear { OnFalse result (IsClearOf number touch (tables_of others.now)) }
    ensures clash { OnTrue result (¬ IsClearOf number touch (tables_of others.now)) }
{
    if touch == UNTOUCHED {
        return false;
    }
    for other in others {
        if touch.clashes(touch_at(&other.touches, number)) {
            return true;
        }
    }
    false
}

// Whether no two pieces clash on an array.
fn are_clear(pieces: &[Piece], number: usize) -> bool
    ensures clear { OnTrue result (AreClear number (tables_of pieces.now)) }
    ensures clash { OnFalse result (¬ AreClear number (tables_of pieces.now)) }
{
    for (i, piece) in pieces.iter().enumerate() {
        let touch = touch_at(&piece.touches, number);
        if clashes_with_any(touch, &pieces[i + 1..], number) {
            return false;
        }
    }
    true
}

/// Whether no two pieces clash on any of so many arrays.
pub(crate) fn are_all_clear(pieces: &[Piece], arrays: usize) -> bool
    ensures clear { OnTrue result
        ((number : ℕ) → number < arrays → AreClear number (tables_of pieces.now)) }
    ensures clash { OnFalse result
        (¬ ((number : ℕ) → number < arrays → AreClear number (tables_of pieces.now))) }
{
    for number in 0..arrays {
        if !are_clear(pieces, number) {
            return false;
        }
    }
    true
}

//! The meaning of pieces that don't clash. No code here runs: the function's contract is a law, and its body is empty.
ghost use Rattle.touch_bounds.specs.Pieces.{ClearPiecesAreApart};

/// Pieces are apart if their recorded stretches are right and clash on no array.
pub fn clear_pieces_are_apart()
    ensures { ClearPiecesAreApart }
{}

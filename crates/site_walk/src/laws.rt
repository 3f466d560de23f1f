//! The meaning of the walk's results. No code here runs: each function's contract is a law, and its body is empty.
ghost use Rattle.site_walk.specs.Laws.{AreOutsidesFound, AreOverlapsFound};

/// The walk finds no index exactly if each static index is inside its array.
pub fn outsides_are_found()
    ensures { AreOutsidesFound }
{}

/// In a program whose names are known and whose indexes are inside, the walk finds no overlap exactly if the pieces of each
/// round of each site are apart.
pub fn overlaps_are_found()
    ensures { AreOverlapsFound }
{}

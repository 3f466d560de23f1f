//! Laws of overlays. No code here runs: each function's contract is a law, and its body is empty.
ghost use Rattle.array_eval.specs.Laws.{RisingListsAreShort};

/// An overlay on a store of so many cells has at most that many pairs: a rising list of cells below a number isn't longer.
pub fn rising_lists_are_short()
    ensures { RisingListsAreShort }
{}

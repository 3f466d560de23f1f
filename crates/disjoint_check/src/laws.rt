//! The meaning of a check that finds no fault. No code here runs: each function's contract is a law, and its body is empty.
ghost use Rattle.disjoint_check.specs.Laws.{AreConditionsTested, AreConditionsChecked};

/// The search for a failed condition finds nothing exactly if the program meets the condition.
pub fn conditions_are_tested()
    ensures { AreConditionsTested }
{}

/// A program fails none of the conditions exactly if it is accepted.
pub fn conditions_are_checked()
    ensures { AreConditionsChecked }
{}

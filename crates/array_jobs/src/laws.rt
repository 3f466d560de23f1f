//! Laws of jobs. No code here runs: each function's contract is a law, and its body is empty.
ghost use Rattle.array_jobs.specs.Bodies.{BodiesGiveFinalStores};

/// The writes of a program's body, laid over zeros, are the store with which the program ends.
pub fn bodies_give_final_stores()
    ensures { BodiesGiveFinalStores }
{}

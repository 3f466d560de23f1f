//! The laws between the two tables of transfers: the planned table (`transfer_table`), whose sites stand in a plan, and the open
//! table (`open_table`), whose sites come and go.
//!
//! An open run makes a plan as it goes: each Register adds a site, with a fresh number, below the hart's owner. The run's transfers
//! are legal for this plan, and complete if the run has ended. The premise is that no site requests in its life more harts than
//! there are others. Conversely each legal run without a Skip is the planned run of an open run.
//!
//! The crate holds definitions and laws. No code here runs: each function's contract is a law, and its body is empty. Begin with
//! `specs/Planned.antt`; `specs/Example.antt` has a run of two harts.
#![tactic(auto)]

ghost use Rattle.table_laws.specs.Laws.{PlansAreTrees, OpenRunsAreLegal, EndedRunsAreComplete, LegalRunsAskFew, PlannedRunsAreOpen};
ghost use Rattle.table_laws.specs.Example.{IsWorkedExample};

/// In the plan of an open run each parent has a smaller number than its site.
pub fn plans_are_trees()
    ensures { PlansAreTrees }
{}

/// The transfers of an open run are legal for the run's plan, and lead to the run's state, if no site requests more harts in its
/// life than there are others.
pub fn open_runs_are_legal()
    ensures { OpenRunsAreLegal }
{}

/// The transfers of an open run that has ended are complete, if no site requests more harts in its life than there are others.
pub fn ended_runs_are_complete()
    ensures { EndedRunsAreComplete }
{}

/// The transfers of an open run are legal only if no site requests more harts in its life than there are others.
pub fn legal_runs_ask_few()
    ensures { LegalRunsAskFew }
{}

/// Each legal run without a Skip is the planned run of an open run, but for the numbers of its sites.
pub fn planned_runs_are_open()
    ensures { PlannedRunsAreOpen }
{}

/// A run of two harts that the open table allows, its plan and its transfers there.
pub fn worked_example()
    ensures { IsWorkedExample }
{}

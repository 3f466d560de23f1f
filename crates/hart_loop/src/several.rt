//! Runs on several harts, and runs whose members overtake.
ghost use Rattle.std.specs.Prelude.{◌≤◌, ◌↔◌, IfOk, IsTrue, length};
ghost use Rattle.array_tree.specs.Trees.{program_of};
ghost use Rattle.array_meaning.specs.Entered.{entered_of};
ghost use Rattle.phase_order.specs.Crossings.{HasNoCrossings};
ghost use Rattle.transfer_table.specs.Plan.{most_entries};
ghost use Rattle.transfer_table.specs.Journal.{IsComplete};
ghost use Rattle.hart_loop.specs.Journals.{IsOfKind};
ghost use Rattle.hart_loop.specs.Outcomes.{IsOutcome};

use crate::on_ports::{on_board, on_plain_port};
use crate::outcome::{Journal, Outcome};
use crate::team_mode::TeamMode;
use disjoint_check::Accepted;
use entered_sites::entered_by;
use hart_work::Run;
use outside_io::Gate;
use site_steps::SiteTree;
use std::alloc::{AllocError, Global};
use std::sync::Wait;
use std::thread::Threads;
use transfer_table::{Entry, first_fault};

/// The number of harts for which the board word has a field.
const MOST_ON_WORDS: u8 = 4;

/// Runs an accepted program on the harts of its plan, at least two, each on a thread. Blocks until all of them are back.
///
/// The store is the store of the one-thread meaning. The journal is that of a closed board, and complete for the plan and the
/// sites that this meaning enters. In a complete journal every transfer is legal, every site is gone, and exactly the entered
/// sites came and went. The caller's thread checks that, and runs the program again if a journal fails the check.
///
/// Up to four harts move on a word board, more on a wide board. A hart that has taken a piece passes the gate before its first
/// step.
///
/// # Errors
///
/// `AllocError` if any allocation fails.
///
/// # Memory
///
/// It allocates the board, the schedulers of each site, the machines, the overlays and the store.
pub fn run_harts<R: Threads + Wait + Sync, G: Gate>(
    rt: &R,
    alloc: Global,
    accepted: &Accepted<'_>,
    gate: &G,
) -> Result<Outcome, AllocError>
    requires { 2 ≤ accepted.now.plan.harts }
    ensures outcome { IfOk result (IsOutcome accepted.now) }
    ensures kind { IfOk result (λ outcome. IsOfKind accepted.now.plan.harts outcome.journal) }
{
    run_tested(rt, alloc, accepted, TeamMode::Wait, gate)
}

/// Runs an accepted program on the harts of its plan, each on a thread, with members that overtake. Blocks until all harts are
/// back.
///
/// No two pieces of the program may cross. A member goes on to its next phase as soon as the members below it have done that
/// phase.
///
/// The store and the journal are as those of `run_harts`, but for one hart the journal is the list of its port.
///
/// # Errors
///
/// `AllocError` if an allocation fails.
///
/// # Memory
///
/// It allocates as `run_harts` does.
pub fn run_piped<R: Threads + Wait + Sync, G: Gate>(
    rt: &R,
    alloc: Global,
    accepted: &Accepted<'_>,
    gate: &G,
) -> Result<Outcome, AllocError>
    requires { HasNoCrossings (program_of accepted.now.program) }
    ensures outcome { IfOk result (IsOutcome accepted.now) }
    ensures kind { IfOk result (λ outcome. IsOfKind accepted.now.plan.harts outcome.journal) }
{
    run_tested(rt, alloc, accepted, TeamMode::Overtake, gate)
}

// Runs the program until its journal is complete.
fn run_tested<R: Threads + Wait + Sync, G: Gate>(
    rt: &R,
    alloc: Global,
    accepted: &Accepted<'_>,
    team_mode: TeamMode,
    gate: &G,
) -> Result<Outcome, AllocError>
    ensures outcome { IfOk result (IsOutcome accepted.now) }
    ensures kind { IfOk result (λ outcome. IsOfKind accepted.now.plan.harts outcome.journal) }
{
    let tree = SiteTree::new(alloc, accepted.plan())?;
    let pass = |hart, site, phase, place| gate.passed(rt, hart, site, phase, place);
    let run = Run {
        rt,
        alloc,
        tree: &tree,
        pass: &pass,
    };
    let harts = accepted.plan().harts();
    for _ in rt.forever() {
        let (store, journal) = if harts == 1 {
            let (store, entries) = on_plain_port(run, accepted, team_mode)?;
            (store, Journal::Listed(entries))
        } else if harts <= MOST_ON_WORDS {
            let (store, closed) = on_board(run, accepted, team_mode)?;
            (store, Journal::Board(closed))
        } else {
            let (store, closed) = on_board(run, accepted, team_mode)?;
            (store, Journal::Wide(closed))
        };
        if is_complete(alloc, accepted, journal.entries())? {
            return Ok(Outcome { store, journal });
        }
    }
    unreachable!()
}

// Whether a run's journal is complete for the sites that the program enters. Why a check at run time: lock-protected state
// doesn't show which sites these are, so no proof about the harts has it.
fn is_complete(
    alloc: Global,
    accepted: &Accepted<'_>,
    journal: &[Entry],
) -> Result<bool, AllocError>
    requires { length journal.now ≤ most_entries }
    ensures { IfOk result (λ is. IsTrue is ↔ IsComplete accepted.now.plan
        (entered_of (program_of accepted.now.program)) journal.now) }
{
    let entered = entered_by(alloc, accepted)?;
    let fault = first_fault(alloc, accepted.plan(), &entered, journal)?;
    Ok(fault.is_none())
}

//! Runs on one hart.
ghost use Rattle.std.specs.Prelude.{◌≡◌, true, [], IfOk, OnOk};
ghost use Rattle.array_tree.specs.Trees.{program_of};
ghost use Rattle.array_meaning.specs.Plans.{plan_of};
ghost use Rattle.array_jobs.specs.Jobs.{job_of};
ghost use Rattle.array_jobs.specs.Bodies.{body_of};
ghost use Rattle.job_machines.specs.Machines.{IsRunJob};
ghost use Rattle.site_steps.specs.Back.{IsSettled, IsBack};
ghost use Rattle.hart_loop.specs.Journals.{IsListed};
ghost use Rattle.hart_loop.specs.Outcomes.{IsOutcome};

use crate::outcome::{Journal, Outcome, store_after};
use array_jobs::{Job, Piece, body_job};
use base_sched::Base;
use disjoint_check::Accepted;
use hart_port::PlainPort;
use hart_work::{Run, run_piece};
use lone_hart::{LoneSite, LoneSites};
use site_steps::SiteTree;
use std::alloc::{AllocError, Global};

/// Runs an accepted program on one hart, and returns. The plan must have one hart.
///
/// The store is the store of the one-thread meaning. The journal is listed, and complete for the plan and the sites that this
/// meaning enters. In a complete journal every transfer is legal, every site is gone, and exactly the entered sites came and
/// went.
///
/// # Errors
///
/// `AllocError` if any allocation fails.
///
/// # Memory
///
/// It allocates the store, the journal, and a machine and an overlay for each piece.
pub fn run_alone(alloc: Global, accepted: &Accepted<'_>) -> Result<Outcome, AllocError>
    requires { accepted.now.plan.harts ≡ 1 }
    ensures outcome { IfOk result (IsOutcome accepted.now) }
    ensures listed { IfOk result (λ outcome. IsListed outcome.journal) }
{
    let plan = accepted.plan();
    let tree = SiteTree::new(alloc, plan)?;
    let mut port = PlainPort::new(alloc, plan)?;
    let piece = run_body(alloc, &tree, &mut port, accepted)?;
    let store = store_after(piece)?;
    Ok(Outcome {
        store,
        journal: Journal::Listed(port.finish()),
    })
}

// Runs the body of an accepted program, with all sites that it enters, and returns the hart to the base.
fn run_body<'p>(
    alloc: Global,
    tree: &SiteTree,
    port: &mut PlainPort,
    accepted: &Accepted<'p>,
) -> Result<Piece<'p>, AllocError>
    requires plan { port.old.view.plan ≡ tree.now }
    requires inner { IsSettled port.old.view }
    requires base { port.old.view.owner ≡ 0 }
    requires none { port.old.view.mine ≡ [] }
    requires parents { tree.now.parents ≡ plan_of (program_of accepted.now.program) }
    ensures back { IsBack port.old.view port.new.view }
    ensures ran { port.old.view.alone ≡ true → OnOk result (IsRunJob tree.now [] port.new.view.mine
        (body_of (program_of accepted.now.program))) }
    ensures piece { IfOk result
        (λ piece. job_of piece.job ≡ body_of (program_of accepted.now.program)) }
{
    let job = body_job(alloc, accepted.program())?;
    let mut base = LoneSite::Base(Base::new(alloc, tree.plan().sites())?);
    // The gate of a single hart does nothing.
    let pass = |_: u8, _: &Job| {};
    let run = Run {
        // Why: there is no runtime, and nothing blocks.
        rt: &(),
        alloc,
        tree,
        pass: &pass,
    };
    run_piece(run, port, (), &mut LoneSites::new(), &mut base, job)
}

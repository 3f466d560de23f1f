//! Teams, as the single hart has them.
ghost use Rattle.std.specs.Prelude.{◌≡◌, ◌≤◌, ◌⊎◌, ℕ, List, IfOk, Some, true};
ghost use Rattle.transfer_table.specs.Plan.{Plan};
ghost use Rattle.transfer_table.specs.declared.entry.Entry.{Entry};
ghost use Rattle.array_tree.specs.Trees.{statement_of};
ghost use Rattle.step_eval.specs.Shapes.{kind_of};
ghost use Rattle.array_jobs.specs.Jobs.{JobParts, job_of};
ghost use Rattle.step_eval.specs.Nests.{nested_of, IsFitNest};
ghost use Rattle.job_machines.specs.Machines.{IsFreshJob, IsRunJob};
ghost use Rattle.loop_team.specs.Teams.{IsOver, AreJobsIn};
ghost use Rattle.step_eval.specs.declared.work.Work.TheVariants.{Begin};
ghost use Rattle.lone_hart.specs.Accounts.{Stands, AllButOneCameBack};
ghost use Rattle.lone_hart.specs.Served.{serves_team, LendsMember, GivesLone};
ghost use Rattle.lone_hart.specs.declared.site.LoneSite.TheVariants as LoneSite;
ghost use Rattle.lone_hart.specs.Sites.{IsRunning, team_jobs_left, wishes_inside};

use crate::wishes::room_for_wishes;
use array_jobs::{Job, Piece};
use loop_team::{Team, TeamWork};
use sched_api::{Next, sched_reenter};
use std::alloc::{AllocError, Global};
use step_eval::{Kind, Nested};

/// The team of a `team` construct.
///
/// # Errors
///
/// `AllocError` if an allocation fails.
///
/// # Memory
///
/// It allocates the jobs of the first phase and the team.
pub fn open_team<'p>(alloc: Global, nested: Nested<'p>) -> Result<Team<'p>, AllocError>
    requires { kind_of (statement_of nested.construct) ≡ Some Kind.Team }
    ensures nested { IfOk result (λ team. team.nested ≡ nested.entry) }
    ensures account { IfOk result IsRunning }
    ensures opened { IfOk result (λ team. team.opened ≡ 0) }
    ensures jobs { IfOk result (λ team. AreJobsIn team.nested 0 team.barrier.jobs) }
    ensures none { IfOk result (λ team. Stands Begin team.barrier team.agenda 0 0) }
    ensures fit { IfOk result (λ team. IsFitNest (nested_of team.nested)) }
    ensures room { IfOk result (λ team. team.agenda.wishes.room ≡ wishes_inside nested.entry) }
{
    let wishes = room_for_wishes(&nested);
    let team = Team::with_wishes(alloc, nested, wishes)?;
    // Why: reading the construct makes its invariant known.
    let _ = team.nested();
    Ok(team)
}

/// The next action of the hart in the team: the next job, or nothing if the team is done.
pub fn next_of_team<'p>(team: &mut Team<'p>) -> Next<Job<'p>>
    ensures nested { team.new.nested ≡ team.old.nested }
    ensures gives { GivesLone (LoneSite.Team team.old) result (LoneSite.Team team.new) }
{
    if team.is_over() {
        return Next::Nothing;
    }
    match sched_reenter(team, ()) {
        Next::Run(TeamWork::Begin(job)) => Next::Run(job),
        // If each job that was begun came back, a job that wasn't begun is left, since the current phase waits for a piece. No
        // context waits.
        Next::Run(TeamWork::Ready(_)) => Next::Nothing,
        Next::Lend(_) => Next::Nothing,
        Next::Nothing => Next::Nothing,
    }
}

/// A piece came back. If it was the last one of its phase, the next phase can be begun.
pub fn arrive_in_team<'p>(team: &mut Team<'p>, piece: Piece<'p>)
    requires { AllButOneCameBack Begin team.old.barrier team.old.agenda piece.job }
    ensures nested { team.new.nested ≡ team.old.nested }
    ensures left { team_jobs_left team.new ≤ team_jobs_left team.old }
    ensures account { IsOver team.new ⊎ IsRunning team.new }
    ensures served { (p : Plan) (around : ℕ) (start es es' : List Entry)
        → LendsMember p around start es team.old piece.entry.job
        → IsRunJob p es es' (job_of piece.entry.job) → serves_team team.new p around start es' }
{
    // Why: reading the construct makes its invariant known.
    let _ = team.nested();
    let _ = team.keep(piece);
}

/// Reports that an allocation failed for a piece.
pub fn fail_in_team(team: &mut Team, place: u8)
    requires { (job : JobParts) × AllButOneCameBack Begin team.old.barrier team.old.agenda job
        × (job.place ≡ place) }
    ensures nested { team.new.nested ≡ team.old.nested }
    ensures left { team_jobs_left team.new ≤ team_jobs_left team.old }
    ensures failed { team.new.failed ≡ true }
{
    team.fail(place);
}

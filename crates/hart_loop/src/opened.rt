//! The schedulers of sites that a hart opens for all harts.
ghost use Rattle.std.specs.Prelude.{◌≡◌, IfOk, IfSome, Some};
ghost use Rattle.array_tree.specs.Trees.{statement_of};
ghost use Rattle.join_book.specs.Books.{IsFull};
ghost use Rattle.loop_team.specs.Teams.{IsOver};
ghost use Rattle.pipe_sched.specs.Slots.{IsFull as IsDone};
ghost use Rattle.step_eval.specs.declared.shape.Kind.TheVariants as kind;
ghost use Rattle.step_eval.specs.Shapes.{kind_of};
ghost use Rattle.step_eval.specs.Nests.{nested_of, nested_writes};
ghost use Rattle.pipe_sched.specs.Pipes.{IsUncrossed};
ghost use Rattle.shared_sites.specs.Completed.{IsCompleted};
ghost use Rattle.hart_loop.specs.Openings.{IsMadeOf, IsSharedPoolOf, kept_in};

use crate::hart_site::Placement;
use crate::team_mode::TeamMode;
use array_eval::Overlay;
use forkjoin_sched::{Pool, SharedPool};
use lone_hart::{open_pool, open_team, room_for_wishes, take_from_pool};
use loop_team::{SharedTeam, Team};
use pipe_sched::{Pipe, SharedPipe};
use pipe_walk::uncrossed;
use shared_sites::{Completed, SharedSite, SiteCell};
use std::alloc::{AllocError, Global};
use step_eval::{Kind, Nested, compute};

/// The scheduler of a construct, with this hart as its home.
pub(crate) fn shared_site<'p>(
    alloc: Global,
    home: u8,
    team_mode: TeamMode,
    nested: &Nested<'p>,
) -> Result<SharedSite<'p>, AllocError>
    ensures { IfOk result (λ shared. IsMadeOf nested.now shared) }
{
    match nested.kind() {
        Kind::Par => {
            let pool = SharedPool::new(alloc, open_pool(alloc, nested)?)?;
            Ok(SharedSite::Pool { home, pool })
        }
        Kind::Team => match team_mode {
            TeamMode::Wait => {
                let team = SharedTeam::new(alloc, open_team(alloc, nested.copy()?)?)?;
                Ok(SharedSite::Team(team))
            }
            TeamMode::Overtake => shared_pipe(alloc, nested),
        },
    }
}

// The pipe of a `team` whose pieces don't cross. If two cross there is no pipe, and the home alone computes the writes of the
// members.
fn shared_pipe<'p>(alloc: Global, nested: &Nested<'p>) -> Result<SharedSite<'p>, AllocError>
    requires { kind_of (statement_of nested.now.construct) ≡ Some kind.Team }
    ensures { IfOk result (λ shared. IsMadeOf nested.now shared) }
{
    let is_clear = uncrossed(alloc, nested)?;
    if !is_clear {
        return Ok(SharedSite::Alone);
    }
    let own = nested.copy()?;
    let pipe = Pipe::with_wishes(alloc, own, room_for_wishes(nested))?;
    let shared = SharedPipe::new(alloc, pipe)?;
    Ok(SharedSite::Pipe(shared))
}

/// Puts a scheduler into the cell of its site.
pub(crate) fn publish<'a, S: Drop>(
    site_cells: &mut [SiteCell<'a, S>],
    site: u16,
    shared: Box<S>,
) -> Placement<'a, S>
    ensures { kept_in result ≡ Some shared.value }
{
    let Some(cell) = site_cells.get_mut(usize::from(site)) else {
        return Placement::Kept(shared);
    };
    match cell.publish(shared) {
        Ok(published) => Placement::Published(published),
        Err(back) => Placement::Kept(back),
    }
}

/// The writes of the construct of this scheduler, if it was handed out: the writes of all pieces, if it has the jobs with which
/// it was made. Otherwise this hart computes them by itself.
pub(crate) fn written_by<'p>(
    alloc: Global,
    nested: &Nested<'p>,
    shared: &SharedSite<'p>,
    completed: Option<Completed<'p>>,
) -> Result<Overlay, AllocError>
    requires made { IsMadeOf nested.now shared.now }
    requires completed { IfSome completed IsCompleted }
    ensures { IfOk result (λ written. written.pairs ≡ nested_writes (nested_of nested.now)) }
{
    match (shared, completed) {
        (SharedSite::Pool { pool, .. }, Some(Completed::Pool(taken))) => {
            written_by_pool(alloc, nested, pool, taken)
        }
        (_, Some(Completed::Team(team))) => written_by_team(alloc, nested, team),
        (SharedSite::Pipe(_), Some(Completed::Pipe(pipe))) => written_by_pipe(alloc, nested, pipe),
        _ => compute(alloc, nested),
    }
}

// The writes of a `par` whose pool was handed out.
fn written_by_pool<'p>(
    alloc: Global,
    nested: &Nested<'p>,
    shared: &SharedPool<'p>,
    pool: Pool<'p>,
) -> Result<Overlay, AllocError>
    requires of { IsSharedPoolOf nested.now shared.now }
    requires full { IsFull pool.book }
    ensures { IfOk result (λ written. written.pairs ≡ nested_writes (nested_of nested.now)) }
{
    if shared.has_jobs_of(&pool) {
        take_from_pool(nested, pool)
    } else {
        compute(alloc, nested)
    }
}

// The writes of a `team` that was handed out.
fn written_by_team<'p>(
    alloc: Global,
    nested: &Nested<'p>,
    team: Team<'p>,
) -> Result<Overlay, AllocError>
    requires { IsOver team }
    ensures { IfOk result (λ written. written.pairs ≡ nested_writes (nested_of nested.now)) }
{
    if *team.nested() == *nested {
        team.take_all()
    } else {
        compute(alloc, nested)
    }
}

// The writes of a `team` whose pipe was handed out.
fn written_by_pipe<'p>(
    alloc: Global,
    nested: &Nested<'p>,
    pipe: Pipe<'p>,
) -> Result<Overlay, AllocError>
    requires clear { IsUncrossed (nested_of nested.now) }
    requires done { IsDone pipe.state }
    ensures { IfOk result (λ written. written.pairs ≡ nested_writes (nested_of nested.now)) }
{
    if *pipe.nested() == *nested {
        pipe.take_all()
    } else {
        compute(alloc, nested)
    }
}

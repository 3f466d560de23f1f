//! The procedure of a hart at a site.
ghost use Rattle.std.specs.Prelude.{◌≡◌, ◌≤◌, ◌<◌, ◌+◌, ◌-◌, ℕ, List, IfOk, OnOk, IsSome, None, true, false};
ghost use Rattle.std.specs.Option.{ForSome};
ghost use Rattle.transfer_table.specs.Plan.{Plan, IsSite, parent as parent_of};
ghost use Rattle.transfer_table.specs.Entry.{requested};
ghost use Rattle.transfer_table.specs.declared.entry.Entry.{Entry};
ghost use Rattle.hart_port.specs.Count.{Rose};
ghost use Rattle.hart_port.specs.PortView.{IsPortView, is_in};
ghost use Rattle.transfer_table.specs.Accounts.{AreFresh, IsSpan};
ghost use Rattle.transfer_table.specs.AccountLaws.{IsSkippedSpan};
ghost use Rattle.site_steps.specs.Back.{IsSettled, IsBack};
ghost use Rattle.site_steps.specs.Skips.{HasSkipped};
ghost use Rattle.hart_work.specs.Accounts.{WhereAlone};
ghost use Rattle.hart_work.specs.Sites.{Stays, HasAccount, HasEntered};

use crate::at::At;
use crate::found::Found;
use crate::machines::Machines;
use crate::run::Run;
use crate::sites::Sites;
use contexts::{Running, Step, ctx_fini, ctx_pause, ctx_resume};
use hart_port::Port;
use sched_api::{
    Lent, Next, sched_enter, sched_reenter, sched_register, sched_request, sched_unregister,
    sched_yield,
};
use site_steps::{PatientPort, SiteTree, finish_site, skip_sites, sweep_if};
use std::alloc::AllocError;

/// Runs a job of the site that the hart is in, and returns the hart to it.
///
/// # Errors
///
/// `AllocError` if an allocation fails.
///
/// # Memory
///
/// It allocates the machine and its overlay.
#[cycle(serve)]
pub fn run_piece<P: PatientPort, R, M: Machines, H: Sites<R, M>, F: Fn(u8, &M::Job)>(
    run: Run<'_, R, F>,
    port: &mut P,
    hold: P::Hold,
    sites: &mut H,
    around: &mut H::Site,
    job: M::Job,
) -> Result<M::Piece, AllocError>
    requires plan { (P.seen port.old).plan ≡ run.tree.now }
    requires callable { F.IsAlwaysCallable run.pass.now }
    requires inner { IsSettled (P.seen port.old) }
    requires fresh { WhereAlone (P.seen port.old) (λ p around es. H.keeps × M.fresh_job p around es job) }
    ensures back { IsBack (P.seen port.old) (P.seen port.new) }
    ensures piece { IfOk result (λ piece. M.job_in piece ≡ job) }
    ensures ran { WhereAlone (P.seen port.old)
        (λ p around es. OnOk result (M.ran_job p es (P.seen port.new).mine job)) }
    ensures stays { Stays H.facts around.old around.new }
    ensures hart_local { H.hart_local sites.new ≡ H.hart_local sites.old }
{
    let mut running = M::start(run.alloc, job)?;
    'steps: loop {
        match M::step(&mut running) {
            Step::More => {}
            Step::Nest(Found::Nest(nested)) => {
                let paused = ctx_pause(running);
                let written = run_construct(run, port, hold, sites, around, nested);
                running = ctx_resume(paused);
                if supply::<M>(&mut running, written).is_err() {
                    let _ = running.abandon();
                    return Err(AllocError);
                }
            }
            Step::Nest(Found::Pass { first, end }) => skip_span(run.tree, port, hold, first, end),
            Step::Finished => return Ok(M::end(ctx_fini(running).into_machine())),
            Step::NoMemory => {
                let _ = running.abandon();
                return Err(AllocError);
            }
        }
    }
}

/// Runs a construct as a site inside the hart's owner, and returns the hart to its owner.
///
/// It checks that the construct's site is a child of the owner, as `register` requires; by the laws in `planned_sites.rt` of
/// `job_machines` it always is. Sites have higher numbers than the site around them, so the recursion ends.
///
/// # Errors
///
/// `AllocError` if an allocation fails.
///
/// # Memory
///
/// It allocates the scheduler of the site, and what its pieces allocate.
#[cycle(serve)]
pub fn run_construct<P: PatientPort, R, M: Machines, H: Sites<R, M>, F: Fn(u8, &M::Job)>(
    run: Run<'_, R, F>,
    port: &mut P,
    hold: P::Hold,
    sites: &mut H,
    around: &mut H::Site,
    nested: M::Nested,
) -> Result<M::Written, AllocError>
    requires plan { (P.seen port.old).plan ≡ run.tree.now }
    requires callable { F.IsAlwaysCallable run.pass.now }
    requires inner { IsSettled (P.seen port.old) }
    requires fresh { WhereAlone (P.seen port.old) (λ p around es. H.keeps × M.fresh p around es nested) }
    ensures back { IsBack (P.seen port.old) (P.seen port.new) }
    ensures written { IfOk result (λ written. M.written_in written ≡ M.writes_of nested) }
    ensures ran { WhereAlone (P.seen port.old)
        (λ p around es. OnOk result (M.ran p es (P.seen port.new).mine nested)) }
    ensures stays { Stays H.facts around.old around.new }
    ensures hart_local { H.hart_local sites.new ≡ H.hart_local sites.old }
{
    let number = M::number(&nested);
    if !run.tree.is_child(port.owner(), number) {
        return M::compute(run.alloc, nested);
    }
    let mut site = sites.open(run.alloc, &nested)?;
    let claim = sched_register(port, hold, &mut At::new(run.rt, sites, around), (), number);
    match claim {
        Ok(_) => {
            sites.offer(run.rt, &site);
            ask(run, port, hold, sites, around, number, sites.wishes(&site));
            serve(run, port, hold, sites, &mut site);
            sweep_if(run.tree, port, hold, sites.has_failed(run.rt, &site));
            finish_site(run.tree, port, hold);
            sched_unregister(port, hold, &mut At::new(run.rt, sites, around), ());
            sites.take(run.rt, run.alloc, site)
        }
        Err(_) => {
            port.until_gone(hold, number);
            M::compute(run.alloc, nested)
        }
    }
}

/// Runs the tasks of the hart's owner: as its home until the site's work is done, as a guest until there is nothing to do.
///
/// # Memory
///
/// It allocates what `run_piece` allocates for each job, and what the site's scheduler allocates when it gets a piece. If an
/// allocation for a job fails, the job's piece is reported as failed, and the call goes on.
#[cycle(serve)]
pub fn serve<P: PatientPort, R, M: Machines, H: Sites<R, M>, F: Fn(u8, &M::Job)>(
    run: Run<'_, R, F>,
    port: &mut P,
    hold: P::Hold,
    sites: &mut H,
    site: &mut H::Site,
)
    requires plan { (P.seen port.old).plan ≡ run.tree.now }
    requires callable { F.IsAlwaysCallable run.pass.now }
    requires inner { IsSettled (P.seen port.old) }
    requires settled { H.facts.settled site.old }
    requires serving { WhereAlone (P.seen port.old)
        (λ p around es. H.keeps × (start : List Entry) × H.facts.serving site.old p around start es) }
    ensures back { IsBack (P.seen port.old) (P.seen port.new) }
    ensures settled { H.facts.settled site.new }
    ensures over { IsSome (H.facts.construct site.new) → H.facts.over site.new }
    ensures served { WhereAlone (P.seen port.old) (λ p around es. (start : List Entry)
        → H.facts.serving site.old p around start es
        → H.facts.serving site.new p around start (P.seen port.new).mine) }
    ensures construct { H.facts.construct site.new ≡ H.facts.construct site.old }
    ensures left { H.facts.left site.new ≤ H.facts.left site.old }
    ensures hart_local { H.hart_local sites.new ≡ H.hart_local sites.old }
{
    'tasks: loop {
        let next = sched_reenter(&mut At::new(run.rt, sites, site), ());
        match next {
            Next::Run(job) => run_job(run, port, hold, sites, site, job),
            Next::Lend(child) => visit(run, port, hold, sites, site, child),
            Next::Nothing => return,
        }
    }
}

// Runs a job, and puts its piece into the site's book.
#[cycle(serve)]
fn run_job<P: PatientPort, R, M: Machines, H: Sites<R, M>, F: Fn(u8, &M::Job)>(
    run: Run<'_, R, F>,
    port: &mut P,
    hold: P::Hold,
    sites: &mut H,
    site: &mut H::Site,
    job: M::Job,
)
    requires plan { (P.seen port.old).plan ≡ run.tree.now }
    requires callable { F.IsAlwaysCallable run.pass.now }
    requires inner { IsSettled (P.seen port.old) }
    requires owed { H.facts.owed site.old job }
    requires fresh { WhereAlone (P.seen port.old) (λ p around es. H.keeps × M.fresh_job p around es job) }
    ensures back { IsBack (P.seen port.old) (P.seen port.new) }
    ensures settled { H.facts.settled site.new }
    ensures served { WhereAlone (P.seen port.old) (λ p around es. (start : List Entry)
        → H.facts.lent site.old job p around start es
        → H.facts.serving site.new p around start (P.seen port.new).mine) }
    ensures construct { H.facts.construct site.new ≡ H.facts.construct site.old }
    ensures left { H.facts.left site.new ≤ H.facts.left site.old }
    ensures hart_local { H.hart_local sites.new ≡ H.hart_local sites.old }
{
    let (phase, place) = (M::phase(&job), M::place(&job));
    (run.pass)(port.hart(), &job);
    match run_piece(run, port, hold, sites, site, job) {
        Ok(piece) => sites.deposit(run.rt, run.alloc, site, piece),
        Err(AllocError) => sites.fail(run.rt, site, phase, place),
    }
}

// Enters a child that wants a hart and that another hart opened, runs its tasks, and returns.
#[cycle(serve)]
fn visit<P: PatientPort, R, M: Machines, H: Sites<R, M>, F: Fn(u8, &M::Job)>(
    run: Run<'_, R, F>,
    port: &mut P,
    hold: P::Hold,
    sites: &mut H,
    around: &mut H::Site,
    child: u16,
)
    requires plan { (P.seen port.old).plan ≡ run.tree.now }
    requires callable { F.IsAlwaysCallable run.pass.now }
    requires inner { IsSettled (P.seen port.old) }
    requires shared { (P.seen port.old).alone ≡ false }
    ensures back { IsBack (P.seen port.old) (P.seen port.new) }
    ensures stays { Stays H.facts around.old around.new }
    ensures hart_local { H.hart_local sites.new ≡ H.hart_local sites.old }
{
    if !run.tree.is_child(port.owner(), child) {
        return;
    }
    let Some(mut site) = sites.find(run.rt, child) else {
        return;
    };
    if let Some(next) = enter(run.rt, port, hold, sites, &mut site) {
        be_guest(run, port, hold, sites, &mut site, next);
        sched_yield(port, hold, &mut At::new(run.rt, sites, around), ());
    }
}

// Tries to enter the site until the hart is inside, and returns the site's next action for it. If the site wants no hart, the
// hart isn't inside.
fn enter<P: PatientPort, R, M: Machines, H: Sites<R, M>>(
    rt: &R,
    port: &mut P,
    hold: P::Hold,
    sites: &mut H,
    site: &mut H::Site,
) -> Option<Next<M::Job>>
    requires known { IsSite (P.seen port.old).plan (H.facts.number site.old) }
    requires child { (P.seen port.old).owner ≡ parent_of (P.seen port.old).plan (H.facts.number site.old) }
    requires settled { H.facts.settled site.old }
    requires kept { IsPortView (P.seen port.old) }
    ensures does { HasEntered (P.seen port.old) (H.facts.number site.old) result (P.seen port.new) }
    ensures kept { IsPortView (P.seen port.new) }
    ensures refused { result ≡ None → Rose (P.refused port.old) (P.refused port.new) }
    ensures account { ForSome result (HasAccount (H.facts.settled site.new) (H.facts.owed site.new)) }
    ensures hart_local { H.hart_local sites.new ≡ H.hart_local sites.old }
{
    'tries: loop {
        let lent = sched_enter(port, hold, &mut At::new(rt, sites, site), ());
        match lent {
            Lent::Inside(next) => return Some(next),
            Lent::NotWanted { shown: _ } => return None,
            Lent::Moved { read: _, found: _ } => {
                if !sites.tries_again(rt, site) {
                    return None;
                }
            }
        }
    }
}

// Does what the site gave the hart to do as it entered, and then the rest.
#[cycle(serve)]
fn be_guest<P: PatientPort, R, M: Machines, H: Sites<R, M>, F: Fn(u8, &M::Job)>(
    run: Run<'_, R, F>,
    port: &mut P,
    hold: P::Hold,
    sites: &mut H,
    site: &mut H::Site,
    next: Next<M::Job>,
)
    requires plan { (P.seen port.old).plan ≡ run.tree.now }
    requires callable { F.IsAlwaysCallable run.pass.now }
    requires inner { IsSettled (P.seen port.old) }
    requires shared { (P.seen port.old).alone ≡ false }
    requires account { HasAccount (H.facts.settled site.old) (H.facts.owed site.old) next }
    ensures back { IsBack (P.seen port.old) (P.seen port.new) }
    ensures hart_local { H.hart_local sites.new ≡ H.hart_local sites.old }
{
    match next {
        Next::Run(job) => run_job(run, port, hold, sites, site, job),
        Next::Lend(child) => visit(run, port, hold, sites, site, child),
        Next::Nothing => {}
    }
    serve(run, port, hold, sites, site);
}

// Skips the sites that a step passes: each child of the owner among them, unless the port refuses its skip. If the hart is
// alone and these are whole subtrees of fresh sites, they are then gone as skipped sites.
fn skip_span<P: PatientPort>(tree: &SiteTree, port: &mut P, hold: P::Hold, first: u16, end: u16)
    requires plan { (P.seen port.old).plan ≡ tree.now }
    requires inner { IsSettled (P.seen port.old) }
    ensures back { IsBack (P.seen port.old) (P.seen port.new) }
    ensures each { HasSkipped P.skip_gives (P.seen port.old) (P.refused port.old) (P.seen port.new)
        (P.refused port.new) first end }
    ensures skipped { WhereAlone (P.seen port.old) (λ p around es.
        IsSpan p around first (end - first) → AreFresh p es first (end - first)
        → IsSkippedSpan p es (P.seen port.new).mine first (end - first)) }
{
    // Why: reading the plan makes the tree's invariant known.
    let _plan = tree.plan();
    skip_sites(tree, port, hold, first, end);
}

// Requests as many harts as the site has work for and the plan has besides this one.
fn ask<P: PatientPort, R, M: Machines, H: Sites<R, M>, F>(
    run: Run<'_, R, F>,
    port: &mut P,
    hold: P::Hold,
    sites: &mut H,
    around: &mut H::Site,
    site: u16,
    most: u8,
)
    requires plan { (P.seen port.old).plan ≡ run.tree.now }
    requires known { IsSite run.tree.now site }
    requires inside { (P.seen port.old).owner ≡ site }
    requires home { is_in (P.seen port.old).homes site ≡ true }
    requires is_open { is_in (P.seen port.old).closed site ≡ false }
    requires none_yet { requested site (P.seen port.old).mine ≡ 0 }
    requires inner { IsSettled (P.seen port.old) }
    requires kept { IsPortView (P.seen port.old) }
    ensures back { IsBack (P.seen port.old) (P.seen port.new) }
    ensures quiet { (P.seen port.old).alone ≡ true → P.seen port.new ≡ P.seen port.old }
    ensures stays { Stays H.facts around.old around.new }
    ensures hart_local { H.hart_local sites.new ≡ H.hart_local sites.old }
{
    let count = most.min(run.tree.plan().harts() - 1);
    if count >= 1 {
        sched_request(
            port,
            hold,
            &mut At::new(run.rt, sites, around),
            (),
            site,
            count,
        );
    }
}

// Gives a machine the writes of its construct.
fn supply<M: Machines>(
    running: &mut Running<M::Machine>,
    written: Result<M::Written, AllocError>,
) -> Result<(), AllocError>
    requires { IfOk written (λ written. M.awaits running.old (M.written_in written)) }
    ensures job { OnOk result (M.job_of running.new ≡ M.job_of running.old) }
    ensures ready { OnOk result (M.ready running.new) }
    ensures left { OnOk result (M.steps_left running.new ≡ M.steps_left running.old) }
    ensures going { OnOk result ((nested : M.Nested) (p : Plan) (around : ℕ)
        (start es es' : List Entry) → M.awaiting nested running.old p around start es
        → OnOk written (M.ran p es es' nested) → M.going running.new p around start es') }
{
    M::supply(running, written?)
}

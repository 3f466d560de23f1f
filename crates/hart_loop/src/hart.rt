//! One hart of several, from the start to the end of a run.
ghost use Rattle.std.specs.Prelude.{◌≡◌, IfOk};
ghost use Rattle.hart_loop.specs.Harts.{StartsIn, IsSameHart, TopSitesSeenGone, HasRun};

use crate::hart_site::HartSite;
use crate::harts::HartSites;
use crate::in_directory::InDirectory;
use array_jobs::{Job, Piece};
use base_sched::SharedBase;
use hart_work::{Run, run_piece, serve};
use shared_sites::HartLocal;
use site_steps::{PatientPort, finish_base, sweep_if};
use std::alloc::AllocError;
use std::sync::Wait;

/// The state of one hart. One of the harts has the program's body as its job, and in the end its piece, unless an allocation
/// failed.
#[derive(Drop)]
pub struct Hart<'a, 'p, P, S> {
    pub port: P,
    pub sites: HartSites<'a, 'p, S>,
    pub base: &'a SharedBase,
    pub job: Option<Job<'p>>,
    pub piece: Option<Piece<'p>>,
}

impl<'a, 'p, P, S: Drop> Hart<'a, 'p, P, S> {
    /// The hart's port, and the hart-local state that it was lent.
    pub fn into_parts(self) -> (P, HartLocal<'a>)
        ensures port { result.0 ≡ self.entry.port }
        ensures hart_local { result.1 ≡ self.entry.sites.hart_local }
    {
        let Hart {
            port,
            sites,
            base: _,
            job: _,
            piece: _,
        } = self;
        (port, sites.into_hart_local())
    }
}

/// Runs the hart's job, or serves the base as a guest until the base is shut.
///
/// The hart with the job shuts the base in the end, and has then seen each top site gone.
///
/// # Memory
///
/// It allocates what `run_piece` and `serve` of `hart_work` allocate. If an allocation for the hart's job fails, `hart.piece` is
/// `None`.
pub fn work<'a, 'p, P: PatientPort, R: Wait, S: InDirectory<'p>, F: Fn(u8, u16, u8, u8)>(
    run: Run<'_, R, F>,
    hold: P::Hold,
    hart: &mut Hart<'a, 'p, P, S>,
)
    requires callable { F.IsAlwaysCallable run.pass.now }
    requires starts { StartsIn run.tree.now (P.seen hart.old.port) }
    ensures { HasRun (P.seen hart.old.port) hart.old.sites.hart_local hart.old.job
        (P.seen hart.new.port) hart.new.sites.hart_local hart.new.piece }
{
    let pass = run.pass;
    let run = Run {
        rt: run.rt,
        alloc: run.alloc,
        tree: run.tree,
        pass: &|hart, job: &Job| pass(hart, job.site, job.phase, job.place),
    };
    match hart.job.take() {
        Some(job) => {
            let piece = run_body(run, hold, hart, job);
            hart.piece = piece.ok();
        }
        None => {
            let mut base: HartSite<'a, 'p, S> = HartSite::base(hart.base);
            serve(run, &mut hart.port, hold, &mut hart.sites, &mut base);
        }
    }
}

// Runs the body, shuts the base, and waits until each top site is gone.
fn run_body<'a, 'p, P: PatientPort, R: Wait, S: InDirectory<'p>, F: Fn(u8, &Job<'p>)>(
    run: Run<'_, R, F>,
    hold: P::Hold,
    hart: &mut Hart<'a, 'p, P, S>,
    job: Job<'p>,
) -> Result<Piece<'p>, AllocError>
    requires callable { F.IsAlwaysCallable run.pass.now }
    requires starts { StartsIn run.tree.now (P.seen hart.old.port) }
    ensures same { IsSameHart (P.seen hart.old.port) (P.seen hart.new.port) }
    ensures hart_local { hart.new.sites.hart_local ≡ hart.old.sites.hart_local }
    ensures gone { TopSitesSeenGone (P.seen hart.new.port) }
    ensures piece { IfOk result (λ piece. piece.job ≡ job.entry) }
{
    let mut base: HartSite<'a, 'p, S> = HartSite::base(hart.base);
    let piece = run_piece(run, &mut hart.port, hold, &mut hart.sites, &mut base, job);
    sweep_if(run.tree, &mut hart.port, hold, piece.is_err());
    hart.base.shut(run.rt);
    finish_base(run.tree, &mut hart.port, hold);
    piece
}

//! The sites, as the single hart has them.
use crate::pools::{deposit_in_pool, fail_in_pool, next_of_pool, open_pool, take_from_pool};
use crate::site::LoneSite;
use crate::teams::{arrive_in_team, fail_in_team, next_of_team, open_team};
use array_eval::Overlay;
use array_jobs::{Job, Piece};
use array_tree::Block;
use hart_work::{Sites, call_back};
use job_machines::JobMachines;
use sched_api::{Call, Next, Scheduler, Told};
use std::alloc::{AllocError, Global};
use std::marker::PhantomData;
use step_eval::{Kind, Nested};

/// The schedulers of the sites, as the single hart has them. No other hart knows them, and no call blocks.
#[derive(Drop)]
pub struct LoneSites<'p> {
    of: PhantomData<&'p Block>,
}

impl<'p> LoneSites<'p> {
    /// The schedulers of a run at its begin.
    pub fn new() -> LoneSites<'p> {
        LoneSites { of: PhantomData }
    }
}

impl<'p, R> Sites<R, JobMachines<'p>> for LoneSites<'p> {
    ghost use Rattle.lone_hart.specs.Sites.{HearsAt};
    ghost use Rattle.lone_hart.specs.Served.{lone_facts};

    type Site = LoneSite<'p>;

    // The hart was lent no hart-local state.
    type HartLocal = ();

    ghost hart_local = { λ _. tt };

    ghost keeps = { Unit {0} };

    ghost facts = { lone_facts };

    ghost hears = { HearsAt };

    fn open(&mut self, alloc: Global, nested: &Nested<'p>) -> Result<LoneSite<'p>, AllocError> {
        let nested = nested.copy()?;
        match nested.kind() {
            Kind::Par => {
                let pool = open_pool(alloc, &nested)?;
                Ok(LoneSite::Pool { nested, pool })
            }
            Kind::Team => Ok(LoneSite::Team(open_team(alloc, nested)?)),
        }
    }

    /// There is no other hart to request.
    fn wishes(&self, _site: &LoneSite<'p>) -> u8 {
        0
    }

    /// There is no other hart that could open a site.
    fn find(&mut self, _rt: &R, _number: u16) -> Option<LoneSite<'p>> {
        None
    }

    fn number(&self, site: &LoneSite<'p>) -> u16 {
        match site {
            LoneSite::Base(base) => base.site(),
            LoneSite::Pool { pool, .. } => pool.site(),
            LoneSite::Team(team) => team.site(),
        }
    }

    fn hear(
        &mut self,
        _rt: &R,
        site: &mut LoneSite<'p>,
        call: Call,
        child: u16,
        count: u8,
    ) -> Told {
        match site {
            LoneSite::Base(base) => call_back(base, (), call, child, count),
            LoneSite::Pool { pool, .. } => call_back(pool, (), call, child, count),
            LoneSite::Team(team) => call_back(team, (), call, child, count),
        }
    }

    fn next(&mut self, _rt: &R, site: &mut LoneSite<'p>) -> Next<Job<'p>> {
        match site {
            LoneSite::Base(_) => Next::Nothing,
            LoneSite::Pool { pool, .. } => next_of_pool(pool),
            LoneSite::Team(team) => next_of_team(team),
        }
    }

    /// There is no other hart that could move in between.
    fn tries_again(&mut self, _rt: &R, _site: &mut LoneSite<'p>) -> bool {
        false
    }

    /// There is no other hart that could take a piece.
    fn offer(&mut self, _rt: &R, _site: &LoneSite<'p>) {}

    fn deposit(&mut self, _rt: &R, _alloc: Global, site: &mut LoneSite<'p>, piece: Piece<'p>) {
        match site {
            LoneSite::Base(_) => unreachable!(),
            LoneSite::Pool { pool, .. } => deposit_in_pool(pool, piece),
            LoneSite::Team(team) => arrive_in_team(team, piece),
        }
    }

    fn fail(&mut self, _rt: &R, site: &mut LoneSite<'p>, _phase: u8, place: u8) {
        match site {
            LoneSite::Base(_) => unreachable!(),
            LoneSite::Pool { pool, .. } => fail_in_pool(pool, place),
            LoneSite::Team(team) => fail_in_team(team, place),
        }
    }

    fn has_failed(&mut self, _rt: &R, site: &LoneSite<'p>) -> bool {
        match site {
            LoneSite::Base(_) => false,
            LoneSite::Pool { pool, .. } => pool.has_failed(),
            LoneSite::Team(team) => team.has_failed(),
        }
    }

    fn take(&mut self, _rt: &R, _alloc: Global, site: LoneSite<'p>) -> Result<Overlay, AllocError> {
        match site {
            LoneSite::Base(_) => unreachable!(),
            LoneSite::Pool { nested, pool } => take_from_pool(&nested, pool),
            LoneSite::Team(team) => team.take_all(),
        }
    }
}

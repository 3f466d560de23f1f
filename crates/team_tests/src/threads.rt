//! Two harts on threads that run one team, each by a hand with a seat of its own.
ghost use Rattle.std.specs.Prelude.{◌≡◌};
ghost use Rattle.claim_words.specs.Seats.{IsOf, identity};
ghost use Rattle.loop_team.specs.Hands.{IsSameHand};
ghost use Rattle.loop_team.specs.Rows.{RowsFit};

use crate::hands::shared_team;
use crate::tables::table_of_two;
use array_jobs::{Job, piece_of};
use loop_team::{ClaimSeat, ClaimTable, SharedTeam, TeamHand, TeamWork, rows_fit};
use sample_programs::{TWO_PHASES, parsed};
use sched_api::{Next, Scheduler};
use std::alloc::Global;
use std::sync::Wait;
use std::sync::atomic::{AtomicU64, Ordering};
use std::test::Fail;
use std::thread::{Threads, for_each_mut};

// The number of times that each of three members began each of two phases, in eight bits each.
#[derive(Drop)]
struct Begun {
    counts: AtomicU64,
}

impl Begun {
    fn note(&self, phase: u8, place: u8) {
        let member = 3 * (phase % 2) + place % 3;
        self.counts.fetch_add(1 << (8 * member), Ordering::SeqCst);
    }

    fn is_each_once(&self) -> bool {
        self.counts.load(Ordering::SeqCst) == 0x01_01_01_01_01_01
    }
}

// Runs a member, and brings its piece.
fn run_member<'a, 'r, 'p, R: Wait + 'a>(
    rt: &'a R,
    hand: &TeamHand<'a, 'r, 'p, R>,
    alloc: Global,
    job: Job<'p>,
) {
    let place = job.place;
    match piece_of(alloc, job) {
        Ok(piece) => {
            let _ = hand.arrive(rt, piece);
        }
        Err(_) => hand.fail(rt, place),
    }
}

// Runs members until the team is done.
fn run_members<'a, 'r, 'p, R: Wait + 'a>(
    rt: &'a R,
    hand: &mut TeamHand<'a, 'r, 'p, R>,
    alloc: Global,
    begun: &Begun,
)
    ensures { IsSameHand hand.old hand.new }
{
    for _ in rt.forever() {
        if hand.is_over(rt) {
            return;
        }
        if let Next::Run(TeamWork::Begin(job)) = hand.enter(rt) {
            begun.note(job.phase, job.place);
            run_member(rt, hand, alloc, job);
        }
    }
}

// The moves of one hart.
fn run_by_seat<'a, 'p, R: Wait + 'a>(
    rt: &'a R,
    shared: &'a SharedTeam<'p>,
    table: &'a ClaimTable,
    alloc: Global,
    begun: &Begun,
    seat: &mut ClaimSeat,
)
    requires of { IsOf table.now (identity seat.old) }
    requires rows { RowsFit table.now.counts.items 0 shared.now }
    ensures { identity seat.new ≡ identity seat.old }
{
    let mut hand = TeamHand::new(shared, table, seat, 0);
    run_members(rt, &mut hand, alloc, begun);
}

// A hart, with what all harts of a team share.
#[derive(Drop)]
struct Runner<'x, 'p> {
    shared: &'x SharedTeam<'p>,
    table: &'x ClaimTable,
    begun: &'x Begun,
    seat: ClaimSeat,
    ghost seated: { IsOf table.now (identity seat) },
    ghost fits: { RowsFit table.now.counts.items 0 shared.now },
}

// Its moves.
fn run<'x, 'p, R: Wait>(rt: &R, alloc: Global, runner: &mut Runner<'x, 'p>) {
    run_by_seat(
        rt,
        runner.shared,
        runner.table,
        alloc,
        runner.begun,
        &mut runner.seat,
    );
}

// All harts run at once.
fn run_by_all<'x, 'p: 'x, R: Threads + Wait + Sync>(
    rt: &'x R,
    alloc: Global,
    runners: &mut [Runner<'x, 'p>],
) {
    for_each_mut(rt, runners, 2, &|_, runner| run(rt, alloc, runner));
}

// Runs a team by two harts.
fn run_by_two<'x, 'p: 'x, R: Threads + Wait + Sync>(
    rt: &R,
    alloc: Global,
    shared: &'x SharedTeam<'p>,
    table: &'x ClaimTable,
    begun: &'x Begun,
    one: ClaimSeat,
    other: ClaimSeat,
)
    requires of { IsOf table.now (identity one) × IsOf table.now (identity other) }
    requires rows { RowsFit table.now.counts.items 0 shared.now }
{
    let mut runners = [
        Runner {
            shared,
            table,
            begun,
            seat: one,
        },
        Runner {
            shared,
            table,
            begun,
            seat: other,
        },
    ];
    run_by_all(rt, alloc, runners.as_mut_slice());
}

// Whether two harts that run a team begin each member of each phase once.
fn begin_each_once<R: Threads + Wait + Sync>(
    rt: &R,
    alloc: Global,
    shared: &SharedTeam,
) -> Result<bool, Fail> {
    let (table, one, other) = table_of_two(alloc)?;
    if !rows_fit(&table, 0, shared.nested()) {
        return Err(Fail::new("other rows"));
    }
    let begun = Begun {
        counts: AtomicU64::new(0),
    };
    run_by_two(rt, alloc, shared, &table, &begun, one, other);
    Ok(begun.is_each_once())
}

// Whether two harts begin each member of each phase of a team once.
fn is_shared_out<R: Threads + Wait + Sync>(rt: &R, alloc: Global) -> Result<bool, Fail> {
    let program = parsed(alloc, TWO_PHASES)?;
    let shared = shared_team(alloc, &program)?;
    begin_each_once(rt, alloc, &shared)
}

#[test]
fn two_threads_begin_each_member_of_each_phase_once(rt: HostRuntime) -> Result<(), Fail> {
    for _ in 0..20 {
        assert!(rt; is_shared_out(&rt, rt.alloc())?);
    }
    Ok(())
}

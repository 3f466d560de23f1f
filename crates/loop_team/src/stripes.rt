//! The pieces of a phase in stripes: a few slots under one lock.
ghost use Rattle.std.specs.Prelude.{◌≡◌, ◌↔◌, ◌<◌, IsTrue, IfOk, OnOk, MatchOption, []};
ghost use Rattle.lithe_barrier.specs.declared.state.Arrival.TheVariants.{Opened};
ghost use Rattle.loop_team.specs.Stripes.{IsVacant, HasCome, IsOf, IsOpen, HasPiece, WaitsFor, Receives, Gives, IsSeatOf, AreSeatsOf, AreAllSeatsOf, IsNotOpened, StartsFrom, IsRid, HasNone, IsStillIn};
ghost use Rattle.loop_team.specs.Teams.{writes_in};

use crate::team::Team;
use array_eval::{Overlay, Store};
use array_jobs::{Job, Piece};
use lithe_barrier::Arrival;
use std::alloc::{AllocError, Global};
use std::marker::Model;
use std::mem;

/// The number of stripes of a team that has any. A member's index modulo this number is the number of its stripe.
pub(crate) const STRIPES: u8 = 8;

// The greatest number of slots of a stripe.
const ROWS: u8 = 8;

// The state of a slot in a stripe.
#[derive(Drop)]
pub(crate) enum Seat<'p> {
    // The slot waits for the piece of this job.
    Open(Job<'p>),
    // Its piece has come.
    Came(Piece<'p>),
    // The slot waits for no piece.
    Gone,
}

impl<'p> Seat<'p> {
    fn is_open(&self) -> bool
        ensures { IsTrue result ↔ IsVacant self.now }
    {
        matches!(self, Seat::Open(_))
    }

    fn has_come(&self) -> bool
        ensures { IsTrue result ↔ HasCome self.now }
    {
        matches!(self, Seat::Came(_))
    }

    // Whether the slot waits for the piece of this job.
    fn is_of(&self, job: &Job) -> bool
        ensures { IsTrue result ↔ IsOf self.now job.now }
    {
        match self {
            Seat::Open(own) => *own == *job,
            Seat::Came(_) | Seat::Gone => false,
        }
    }
}

/// Some slots of the current phase: row `n` has the slot at `n * STRIPES` plus the stripe's number.
///
/// Contracts see its number, the store from which all its jobs start, and its rows.
#[derive(Drop)]
pub(crate) struct Stripe<'p> {
    number: u8,
    start: Store,
    seats: Vec<Seat<'p>>,
}

impl<'p> Model for Stripe<'p> {
    ghost use Rattle.std.specs.Coded.{codes};
    ghost use Rattle.array_tree.specs.contracts.tree.Arrays as arrays_type;
    ghost use Rattle.array_tree.specs.contracts.tree.Block as block_type;
    ghost use Rattle.lithe_barrier.specs.declared.state.Arrival.TheVariants.{Opened};
    ghost use Rattle.loop_team.specs.Stripes.{StripeParts, IsKeptStripe};

    ghost Value = { StripeParts };

    ghost coded = { Prim.hlevel (codes, arrays_type.the_row.coded, block_type.the_row.coded) };

    ghost view = { λ stripe. record { number = stripe.number; start = stripe.start; seats = stripe.seats.items } };

    ghost invariant = { λ stripe. IsKeptStripe record { number = stripe.number; start = stripe.start; seats = stripe.seats.items } };
}

impl<'p> Stripe<'p> {
    /// The stripe of this number, for the current phase. It allocates all room.
    pub(crate) fn new(alloc: Global, team: &Team<'p>, number: u8) -> Result<Stripe<'p>, AllocError>
        requires { number < STRIPES }
        ensures number { IfOk result (λ stripe. stripe.number ≡ number) }
        ensures seats { IfOk result (λ stripe. AreSeatsOf team.now number stripe.seats) }
        ensures all { IfOk result (λ stripe. AreAllSeatsOf team.now number stripe.seats) }
    {
        let mut stripe = Stripe {
            number,
            start: team.start().copy()?,
            seats: Vec::with_capacity(alloc, team.jobs().len() / usize::from(STRIPES) + 1)?,
        };
        stripe.begin(team)?;
        Ok(stripe)
    }

    /// Waits for the pieces of the current phase.
    pub(crate) fn begin(&mut self, team: &Team<'p>) -> Result<(), AllocError>
        ensures number { self.new.number ≡ self.old.number }
        ensures seats { AreSeatsOf team.now self.old.number self.new.seats }
        ensures all { OnOk result (AreAllSeatsOf team.now self.old.number self.new.seats) }
    {
        self.seats.clear();
        self.start = team.start().copy()?;
        fill(&mut self.seats, team, self.number)
    }

    /// Whether a row waits for its piece.
    pub(crate) fn is_open(&self, row: u8) -> bool
        ensures { IsTrue result ↔ IsOpen self.now row }
    {
        match self.seats.get(usize::from(row)) {
            Some(seat) => seat.is_open(),
            None => false,
        }
    }

    /// Takes the piece of a row. Returns the piece if the row doesn't wait for it.
    pub(crate) fn arrive(&mut self, row: u8, piece: Piece<'p>) -> Result<(), Piece<'p>>
        ensures { Receives self.old row piece.entry result self.new }
    {
        if !self.waits_for(row, &piece.job) {
            return Err(piece);
        }
        self.seats[usize::from(row)] = Seat::Came(piece);
        Ok(())
    }

    // Whether the row waits for the piece of this job.
    fn waits_for(&self, row: u8, job: &Job) -> bool
        ensures { IsTrue result ↔ WaitsFor self.now row job.now }
    {
        match self.seats.get(usize::from(row)) {
            Some(seat) => seat.is_of(job),
            None => false,
        }
    }

    /// Returns the piece of a row, if it has come.
    pub(crate) fn take(&mut self, row: u8) -> Option<Piece<'p>>
        ensures { Gives self.old row result self.new }
    {
        if !self.has_piece(row) {
            return None;
        }
        match mem::replace(&mut self.seats[usize::from(row)], Seat::Gone) {
            Seat::Came(piece) => Some(piece),
            Seat::Open(_) | Seat::Gone => unreachable!(),
        }
    }

    // Whether the piece of a row has come.
    fn has_piece(&self, row: u8) -> bool
        ensures { IsTrue result ↔ HasPiece self.now row }
    {
        match self.seats.get(usize::from(row)) {
            Some(seat) => seat.has_come(),
            None => false,
        }
    }

    // Whether the stripe's jobs start from this store.
    fn starts_from(&self, store: &Store) -> bool
        ensures { IsTrue result ↔ (self.now.start ≡ store.now) }
    {
        self.start == *store
    }
}

// Appends the slots of a stripe of this number.
fn fill<'p>(seats: &mut Vec<Seat<'p>>, team: &Team<'p>, number: u8) -> Result<(), AllocError>
    requires none { seats.old.items ≡ [] }
    requires few { number < STRIPES }
    ensures seats { AreSeatsOf team.now number seats.new.items }
    ensures all { OnOk result (AreAllSeatsOf team.now number seats.new.items) }
{
    for row in 0..ROWS {
        let place = number + row * STRIPES;
        if usize::from(place) >= team.jobs().len() {
            break;
        }
        seats.push(seat_of(team, place)?)?;
    }
    Ok(())
}

// The slot at an index of the team.
fn seat_of<'p>(team: &Team<'p>, place: u8) -> Result<Seat<'p>, AllocError>
    ensures { IfOk result (λ s. IsSeatOf team.now place s) }
{
    match team.open_job(place) {
        Some(job) => Ok(Seat::Open(job.copy()?)),
        None => Ok(Seat::Gone),
    }
}

/// Passes all pieces of a stripe to its team. Returns the phase's writes, if it opens.
///
/// All jobs of a stripe start from its store, so it compares one store for the stripe, and the rest of each job.
pub(crate) fn hand_on<'p>(
    team: &mut Team<'p>,
    stripe: &mut Stripe<'p>,
) -> Result<Option<Overlay>, AllocError>
    ensures { IfOk result (λ found. MatchOption found (HasNone stripe.new)
        (λ written. written.pairs ≡ writes_in team.old.nested team.old.opened)) }
{
    let known = stripe.starts_from(team.start());
    for row in 0..ROWS {
        let found = hand_row(team, stripe, row, known)?;
        if found.is_some() {
            return Ok(found);
        }
    }
    Ok(None)
}

// Passes the piece of a row to the team, if it has come. If the team's phase is known to start from the stripe's store, stores
// aren't compared.
fn hand_row<'p>(
    team: &mut Team<'p>,
    stripe: &mut Stripe<'p>,
    row: u8,
    known: bool,
) -> Result<Option<Overlay>, AllocError>
    requires { IsTrue known → StartsFrom team.old stripe.old.start }
    ensures hands { IfOk result (λ found. MatchOption found (IsStillIn team.old team.new)
        (λ written. written.pairs ≡ writes_in team.old.nested team.old.opened)) }
    ensures rid { IsRid stripe.old row stripe.new }
{
    let Some(piece) = stripe.take(row) else {
        return Ok(None);
    };
    Ok(opened_by(team.take_in(piece, known)?))
}

// The writes of a phase, if a piece opened it.
fn opened_by(arrival: Arrival) -> Option<Overlay>
    ensures { MatchOption result (IsNotOpened arrival.entry)
        (λ written. arrival.entry ≡ Opened written) }
{
    match arrival {
        Arrival::Opened(written) => Some(written),
        Arrival::Kept | Arrival::Stranger(_) => None,
    }
}

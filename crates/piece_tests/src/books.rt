//! Books.

use array_eval::Overlay;
use array_jobs::{Job, body_job, copy_jobs, piece_of};
use array_tree::Program;
use join_book::Book;
use sample_programs::{
    BOTH_BRANCHES, Came, TWO_BRANCHES, accepted, first_jobs, outcome_of, parsed, piece_at,
};
use std::alloc::Global;
use std::test::Fail;

// Deposits the piece of one of the jobs.
fn bring<'p>(
    book: &mut Book<'p>,
    alloc: Global,
    jobs: &[Job<'p>],
    place: usize,
) -> Result<Came, Fail> {
    let piece = piece_at(alloc, jobs, place)?;
    Ok(outcome_of(book.deposit(piece)))
}

// The writes of a full book.
fn taken(book: Book) -> Result<Overlay, Fail> {
    if !book.is_full() {
        return Err(Fail::new("it isn't full"));
    }
    Ok(book.take_all()?)
}

// Whether a full book has a failed slot and no writes.
fn gives_nothing(book: Book) -> bool {
    book.is_full() && book.has_failed() && book.take_all().is_err()
}

// Marks a slot as failed. Returns whether it was open.
fn fail(book: &mut Book, place: u8) -> bool {
    if !book.is_open(place) {
        return false;
    }
    book.fail(place);
    true
}

// A book for the first jobs of a program, and copies of the jobs.
fn begun<'p>(alloc: Global, program: &'p Program) -> Result<(Book<'p>, Vec<Job<'p>>), Fail> {
    let jobs = first_jobs(alloc, program)?;
    let copies = copy_jobs(alloc, &jobs)?;
    Ok((Book::new(alloc, jobs)?, copies))
}

// Whether the book keeps the piece of each of two jobs, and the first one not twice.
fn keeps_each_once<'p>(book: &mut Book<'p>, alloc: Global, jobs: &[Job<'p>]) -> Result<bool, Fail> {
    Ok(
        bring(book, alloc, jobs, 0)? == Came::Kept
            && bring(book, alloc, jobs, 0)? == Came::Double
            && bring(book, alloc, jobs, 1)? == Came::Kept,
    )
}

// Whether a full book has the writes of both branches.
fn gives_both(book: Book) -> Result<bool, Fail> {
    Ok(taken(book)?.pairs() == BOTH_BRANCHES.as_slice())
}

#[test]
fn a_full_book_gives_the_writes_of_all(rt: HostRuntime) -> Result<(), Fail> {
    let alloc = rt.alloc();
    let program = parsed(alloc, TWO_BRANCHES)?;
    let (mut book, copies) = begun(alloc, &program)?;
    assert!(rt; keeps_each_once(&mut book, alloc, &copies)?);
    assert!(rt; gives_both(book)?);
    Ok(())
}

// Deposits the piece of a program's complete body.
fn bring_body<'p>(book: &mut Book<'p>, alloc: Global, program: &'p Program) -> Result<Came, Fail> {
    let accepted = accepted(alloc, program)?;
    let stranger = piece_of(alloc, body_job(alloc, accepted.program())?)?;
    Ok(outcome_of(book.deposit(stranger)))
}

#[test]
fn a_piece_of_another_job_is_a_stranger(rt: HostRuntime) -> Result<(), Fail> {
    let alloc = rt.alloc();
    let program = parsed(alloc, TWO_BRANCHES)?;
    let mut book = Book::new(alloc, first_jobs(alloc, &program)?)?;
    assert_eq!(rt; bring_body(&mut book, alloc, &program)?, Came::Stranger);
    Ok(())
}

// Whether a failed slot takes no piece, while the other one does.
fn fails_at_one<'p>(book: &mut Book<'p>, alloc: Global, jobs: &[Job<'p>]) -> Result<bool, Fail> {
    Ok(
        fail(book, 1)
            && bring(book, alloc, jobs, 1)? == Came::Double
            && bring(book, alloc, jobs, 0)? == Came::Kept,
    )
}

#[test]
fn a_failed_slot_is_out_of_memory(rt: HostRuntime) -> Result<(), Fail> {
    let alloc = rt.alloc();
    let program = parsed(alloc, TWO_BRANCHES)?;
    let (mut book, copies) = begun(alloc, &program)?;
    assert!(rt; fails_at_one(&mut book, alloc, &copies)?);
    assert!(rt; gives_nothing(book));
    Ok(())
}

//! Harts on threads that find a site.
ghost use Rattle.std.specs.Prelude.{◌≡◌, length};

use crate::finding::is_taken;
use array_tree::Program;
use once_cell::race::OnceBox;
use sample_programs::{TWO_BRANCHES, parsed};
use shared_sites::{SharedSite, SiteCell, cells};
use std::alloc::Global;
use std::sync::Wait;
use std::test::Fail;
use std::thread;
use std::thread::Threads;

// A hart, with its line to a cell, and the number of jobs that it found there.
#[derive(Drop)]
struct Finder<'x, 'p> {
    line: SiteCell<'x, SharedSite<'p>>,
    jobs: usize,
}

// Waits for the site to be published.
fn look<'x, 'p, R: Wait>(rt: &'x R, finder: &mut Finder<'x, 'p>) {
    finder.jobs = match finder.line.until_found(rt) {
        SharedSite::Pool { home: 0, pool } => pool.jobs().len(),
        _ => 0,
    };
}

// Each hart, by its own line, on a thread of its own.
fn look_all<'x, 'p: 'x, R: Threads + Wait + Sync>(rt: &'x R, finders: &mut [Finder<'x, 'p>]) {
    thread::for_each_mut(rt, finders, 2, &|_, finder| look(rt, finder));
}

// Whether two harts find the program's pool.
fn is_found_by_two<'x, 'p: 'x, R: Threads + Wait + Sync>(
    rt: &'x R,
    alloc: Global,
    program: &'p Program,
    cells: &'x [OnceBox<SharedSite<'p>>],
) -> Result<bool, Fail>
    requires { length cells.now ≡ 2 }
{
    let mut home = SiteCell::new(&cells[1]);
    if !is_taken(alloc, &mut home, program)? {
        return Err(Fail::new("the cell is full"));
    }
    let mut finders = Vec::new(alloc);
    for _ in 0..2 {
        let line = SiteCell::new(&cells[1]);
        finders.push(Finder { line, jobs: 0 })?;
    }
    look_all(rt, finders.as_mut_slice());
    Ok(finders.iter().all(|finder| finder.jobs == 2))
}

#[test]
fn two_harts_on_threads_find_one_pool(rt: HostRuntime) -> Result<(), Fail> {
    let alloc = rt.alloc();
    let program = parsed(alloc, TWO_BRANCHES)?;
    let cells = cells(alloc, 1)?;
    assert!(rt; is_found_by_two(&rt, alloc, &program, cells.as_slice())?);
    Ok(())
}

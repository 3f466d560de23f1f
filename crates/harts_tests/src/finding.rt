//! Publishing and finding schedulers.
ghost use Rattle.std.specs.Prelude.{◌≡◌, length};

use array_tree::Program;
use forkjoin_sched::{Pool, SharedPool};
use once_cell::race::OnceBox;
use sample_programs::{TWO_BRANCHES, first_jobs, parsed};
use shared_sites::{SharedSite, SiteCell, cells, site_cells};
use std::alloc::Global;
use std::test::Fail;

// The scheduler of a program that begins with a `par`, for all harts.
fn pool_site<'p>(alloc: Global, program: &'p Program) -> Result<Box<SharedSite<'p>>, Fail> {
    let pool = Pool::new(alloc, first_jobs(alloc, program)?)?;
    let shared = SharedPool::new(alloc, pool)?;
    let site = SharedSite::Pool {
        home: 0,
        pool: shared,
    };
    Ok(Box::new(alloc, site)?)
}

// Publishes the scheduler of a program that begins with a `par`. Returns whether the cell took it.
pub fn is_taken<'a, 'p>(
    alloc: Global,
    line: &mut SiteCell<'a, SharedSite<'p>>,
    program: &'p Program,
) -> Result<bool, Fail> {
    match line.publish(pool_site(alloc, program)?) {
        Ok(_) => Ok(true),
        Err(_) => Ok(false),
    }
}

// The number of jobs of the `par`'s scheduler in a cell; 0 if the cell has none.
fn jobs_found(line: &mut SiteCell<'_, SharedSite<'_>>) -> usize {
    match line.find() {
        Some(SharedSite::Pool { home: _, pool }) => pool.jobs().len(),
        _ => 0,
    }
}

// Whether both harts find the scheduler of site 1, and neither before it is published, nor at site 2.
fn is_found<'a, 'p>(
    alloc: Global,
    program: &'p Program,
    cells: &'a [OnceBox<SharedSite<'p>>],
) -> Result<bool, Fail>
    requires { length cells.now ≡ 3 }
{
    let mut home = site_cells(alloc, cells)?;
    let mut guest = site_cells(alloc, cells)?;
    let before = jobs_found(&mut guest[1]);
    let taken = is_taken(alloc, &mut home[1], program)?;
    let after = jobs_found(&mut guest[1]) == 2 && jobs_found(&mut home[1]) == 2;
    Ok(taken && after && before == 0 && jobs_found(&mut guest[2]) == 0)
}

// Whether the cell of site 1 takes one scheduler and no second one.
fn takes_one<'a, 'p>(
    alloc: Global,
    program: &'p Program,
    cells: &'a [OnceBox<SharedSite<'p>>],
) -> Result<bool, Fail>
    requires { length cells.now ≡ 2 }
{
    let mut home = site_cells(alloc, cells)?;
    let first = is_taken(alloc, &mut home[1], program)?;
    let second = is_taken(alloc, &mut home[1], program)?;
    Ok(first && !second)
}

#[test]
fn a_site_is_found_once_it_was_published(rt: HostRuntime) -> Result<(), Fail> {
    let alloc = rt.alloc();
    let program = parsed(alloc, TWO_BRANCHES)?;
    let cells = cells(alloc, 2)?;
    assert!(rt; cells.len() == 3);
    assert!(rt; is_found(alloc, &program, cells.as_slice())?);
    Ok(())
}

#[test]
fn a_cell_takes_one_scheduler(rt: HostRuntime) -> Result<(), Fail> {
    let alloc = rt.alloc();
    let program = parsed(alloc, TWO_BRANCHES)?;
    let cells = cells(alloc, 1)?;
    assert!(rt; takes_one(alloc, &program, cells.as_slice())?);
    Ok(())
}

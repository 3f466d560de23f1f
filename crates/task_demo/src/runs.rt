//! The runs of the libraries and of programs.
ghost use Rattle.std.specs.Prelude.{◌≤◌};
ghost use Rattle.task_nested.specs.Works.{depth_of};

use crate::error::DemoError;
use crate::inputs::{numbers, rows, sum_of};
use crate::pairs::Pairs;
use crate::words::{Demo, Library, Made, Work};
use array_tasks::lines_observed;
use std::alloc::Global;
use std::sync::Wait;
use std::thread::Threads;
use std::time::{Clock, Duration, Instant};
use task_crew::run_observed_eight_levels;
use task_loops::{Mapped, Part};
use task_matrix::{Factors, Times};
use task_nested::{Done, Rows, Work as Nested};
use task_sort::{SHORTEST, Sort};
use task_trace::{Trace, Traced};

/// The levels of a run. 256 parts keep 64 harts busy.
const LEVELS: u8 = 8;

/// The numbers in each row of a table.
const ROW: u32 = 20_000;

/// The length below which one hart sorts a part of a row, or adds it up.
const SHORTEST_OF_ROW: usize = 2_048;

/// What a run prints. It doesn't depend on the number of harts.
#[derive(Debug, Drop, PartialEq)]
pub enum Output {
    /// The check sum of a library's output.
    Sum(u64),
    /// The lines of a program's arrays.
    Lines(Vec<u8>),
}

/// The result of a run.
#[derive(Debug, Drop)]
pub struct Ran {
    /// What is printed.
    pub output: Output,
    /// The time of the run, without making the input of a library and without its check sum. The time of a program includes
    /// parsing and checking.
    pub took: Duration,
}

/// Runs a library, or the program that a text spells, on harts. The trace, if there is one, keeps the events of the run.
///
/// # Errors
///
/// `OutOfMemory` or `NoClock`. `NotInRange` if there are no harts or more than 64. `TooLong` or `Refused` if the text spells no
/// program that is accepted.
///
/// # Memory
///
/// The input, the output, and what the run allocates.
pub fn run_demo<R: Threads + Wait + Clock + Sync>(
    rt: &R,
    alloc: Global,
    demo: &Demo,
    text: &[u8],
    trace: Option<&Trace>,
) -> Result<Ran, DemoError> {
    match demo.work {
        Work::Library(made) => run_library(rt, alloc, demo.harts, made, trace),
        Work::Program => run_text(rt, alloc, demo.harts, text, trace),
    }
}

// Runs a library.
fn run_library<R: Threads + Wait + Clock + Sync>(
    rt: &R,
    alloc: Global,
    harts: u8,
    made: Made,
    trace: Option<&Trace>,
) -> Result<Ran, DemoError> {
    match made.library {
        Library::Sort => run_sort(rt, alloc, harts, made, trace),
        Library::Matrix => run_matrix(rt, alloc, harts, made, trace),
        Library::Nested => run_table(rt, alloc, harts, made, trace, 4),
        Library::Flat => run_table(rt, alloc, harts, made, trace, 0),
        Library::Empty => run_pairs(rt, alloc, harts, made, trace),
    }
}

// Runs the program that a text spells.
fn run_text<R: Threads + Wait + Clock + Sync>(
    rt: &R,
    alloc: Global,
    harts: u8,
    text: &[u8],
    trace: Option<&Trace>,
) -> Result<Ran, DemoError> {
    let start = Instant::now(rt)?;
    let handle = Traced::new(rt, trace);
    let lines = lines_observed(&handle, alloc, harts, text)?;
    let took = start.elapsed(rt)?;
    Ok(Ran {
        output: Output::Lines(lines),
        took,
    })
}

// Runs work on harts. Returns its output and the time that it took.
//
// Why one call for the sort and the table: the code of the tasks exists once for each kind of tasks.
fn run_work<R: Threads + Wait + Clock + Sync>(
    rt: &R,
    alloc: Global,
    harts: u8,
    trace: Option<&Trace>,
    work: Nested<'_>,
) -> Result<(Done, Duration), DemoError>
    requires { depth_of work ≤ 8 }
{
    let start = Instant::now(rt)?;
    let handle = Traced::new(rt, trace);
    let done = run_observed_eight_levels(&handle, alloc, harts, LEVELS, work)?;
    let took = start.elapsed(rt)?;
    Ok((done, took))
}

// Sorts numbers.
fn run_sort<R: Threads + Wait + Clock + Sync>(
    rt: &R,
    alloc: Global,
    harts: u8,
    made: Made,
    trace: Option<&Trace>,
) -> Result<Ran, DemoError> {
    let work = Nested::Sorted(Sort {
        items: numbers(alloc, made.count, made.seed)?,
        cuts: LEVELS,
        shortest: SHORTEST,
    });
    let (done, took) = run_work(rt, alloc, harts, trace, work)?;
    let mut sum = 0u64;
    if let Done::Numbers(sorted) = done {
        sum = sum_of(sorted.as_slice(), sum);
    }
    Ok(Ran {
        output: Output::Sum(sum),
        took,
    })
}

// Multiplies two matrices.
fn run_matrix<R: Threads + Wait + Clock + Sync>(
    rt: &R,
    alloc: Global,
    harts: u8,
    made: Made,
    trace: Option<&Trace>,
) -> Result<Ran, DemoError> {
    let left = rows(alloc, made.count, made.count, made.seed)?;
    let right = rows(alloc, made.count, made.count, made.seed.wrapping_add(1))?;
    let factors: Factors = Mapped {
        elements: left.as_slice(),
        map: Times {
            columns: right.as_slice(),
        },
    };
    let whole = Part::whole(factors, LEVELS, 8);
    let start = Instant::now(rt)?;
    let handle = Traced::new(rt, trace);
    let product = run_observed_eight_levels(&handle, alloc, harts, LEVELS, whole)?;
    let took = start.elapsed(rt)?;
    let mut sum = 0u64;
    for row in product.as_slice() {
        sum = sum_of(row.as_slice(), sum);
    }
    Ok(Ran {
        output: Output::Sum(sum),
        took,
    })
}

// Sorts and adds up the rows of a table, each by parts that are cut so many times.
fn run_table<R: Threads + Wait + Clock + Sync>(
    rt: &R,
    alloc: Global,
    harts: u8,
    made: Made,
    trace: Option<&Trace>,
    cuts: u8,
) -> Result<Ran, DemoError>
    requires { cuts ≤ 4 }
{
    let table = rows(alloc, made.count, ROW, made.seed)?;
    let rows = Rows {
        rows: table.as_slice(),
        cuts,
        shortest: SHORTEST_OF_ROW,
    };
    let work = Nested::Table(Part::whole(rows, LEVELS - cuts, 1));
    let (done, took) = run_work(rt, alloc, harts, trace, work)?;
    let mut sum = 0u64;
    if let Done::Summaries(summaries) = done {
        for summary in summaries.as_slice() {
            sum = sum_of(summary.sorted.as_slice(), sum).wrapping_add(summary.sum);
        }
    }
    Ok(Ran {
        output: Output::Sum(sum),
        took,
    })
}

// Runs pairs of empty tasks. The check sum is the number of tasks that have ended.
fn run_pairs<R: Threads + Wait + Clock + Sync>(
    rt: &R,
    alloc: Global,
    harts: u8,
    made: Made,
    trace: Option<&Trace>,
) -> Result<Ran, DemoError> {
    let pairs = Pairs { calls: made.count };
    let start = Instant::now(rt)?;
    let handle = Traced::new(rt, trace);
    let sum = run_observed_eight_levels(&handle, alloc, harts, 1, pairs)?;
    let took = start.elapsed(rt)?;
    Ok(Ran {
        output: Output::Sum(sum),
        took,
    })
}

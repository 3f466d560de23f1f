//! The words of the command line, read by `clap`.
ghost use Rattle.std.specs.Prelude.{◌≤◌, IfOk};

use crate::error::DemoError;
use clap::{Arg, ArgAction, ArgMatches, Command};
use std::alloc::{AllocError, Global};

/// Which library runs.
#[derive(Clone, Copy, Debug, PartialEq)]
pub enum Library {
    /// A list of numbers is sorted.
    Sort,
    /// Two square matrices are multiplied.
    Matrix,
    /// The rows of a table are sorted and added up, each by tasks of its own.
    Nested,
    /// The rows of a table are sorted and added up, each by one hart.
    Flat,
    /// Pairs of empty tasks run.
    Empty,
}

/// A library, and the input that is made for it.
#[derive(Clone, Copy, Debug, PartialEq)]
pub struct Made {
    /// The library.
    pub library: Library,
    /// The number of numbers, of rows and columns, of rows, or of pairs.
    pub count: u32,
    /// The seed of the numbers.
    pub seed: u64,
}

/// What runs.
#[derive(Clone, Copy, Debug, PartialEq)]
pub enum Work {
    /// A library, on an input that is made.
    Library(Made),
    /// The program of the array language whose text standard input has.
    Program,
}

/// The run that the words request.
#[derive(Debug, Drop, PartialEq)]
pub struct Demo {
    /// What runs.
    pub work: Work,
    /// The number of harts, 1 to 64.
    pub harts: u8,
    /// The path of the file that gets the trace of the run.
    pub trace: Option<String>,
}

// The commands on inputs that are made, each with its text in the help.
const COMMANDS: [(&str, &str); 5] = [
    ("sort", "Sorts COUNT numbers, at most 100000000"),
    (
        "matrix",
        "Multiplies two matrices of COUNT rows, at most 4000",
    ),
    (
        "nested",
        "Sorts and adds up COUNT rows, at most 10000, each by tasks of its own",
    ),
    (
        "flat",
        "Sorts and adds up COUNT rows, at most 10000, each on one hart",
    ),
    (
        "empty",
        "Runs COUNT pairs of empty tasks, at most 100000000",
    ),
];

// The command of programs.
const ARRAY: &str = "array";

/// Reads the run that the words request.
///
/// # Errors
///
/// `Words` or `NoCommand` if the words aren't a command with its options, or request help; `NotInRange` if a
/// number is out of its range; and `OutOfMemory`.
///
/// # Memory
///
/// It allocates the commands and the matches of `clap`.
pub fn demo_of(alloc: Global, words: &[String]) -> Result<Demo, DemoError>
    ensures { IfOk result (λ demo. (1 ≤ demo.harts) × (demo.harts ≤ 64)) }
{
    let command = commands(alloc)?;
    let matches = command.try_get_matches_from(words)?;
    match matches.subcommand() {
        Some((name, given)) => demo_at(alloc, name, given),
        None => Err(DemoError::NoCommand),
    }
}

// The commands, each with its options.
fn commands<'a>(alloc: Global) -> Result<Command<'a>, AllocError> {
    let mut app = Command::new(alloc, "task_demo")
        .about("Runs the task libraries on 1 to 64 harts")
        .no_binary_name(true)
        .subcommand_required(true);
    for (name, about) in COMMANDS {
        let bare = Command::new(alloc, name).about(about);
        let sized = bare.arg(option(alloc, "count", "The size of the input").required(true))?;
        let seeded = sized.arg(option(alloc, "seed", "The seed of the input").required(true))?;
        app = app.subcommand(on_harts(alloc, seeded)?)?;
    }
    let array = Command::new(alloc, ARRAY).about(
        "Runs the program of the array language that standard input has, and prints its arrays",
    );
    app.subcommand(on_harts(alloc, array)?)
}

// A command with the options that each command has.
fn on_harts<'a>(alloc: Global, command: Command<'a>) -> Result<Command<'a>, AllocError> {
    let harts = option(alloc, "harts", "The number of harts, 1 to 64").required(true);
    let trace = option(alloc, "trace", "The file that gets the trace of the run");
    command.arg(harts)?.arg(trace)
}

// An option that takes a value.
fn option<'a>(alloc: Global, name: &'a str, help: &'a str) -> Arg<'a> {
    Arg::new(alloc, name)
        .long(name)
        .help(help)
        .action(ArgAction::Set)
}

// The command of this name, with its options.
fn demo_at(alloc: Global, name: &str, given: &ArgMatches<'_>) -> Result<Demo, DemoError>
    ensures { IfOk result (λ demo. (1 ≤ demo.harts) × (demo.harts ≤ 64)) }
{
    let work = work_at(name, given)?;
    let harts = number_at(given, "harts", 1, 64)?;
    let trace = match given.get_str("trace") {
        Some(path) => Some(String::from_str(alloc, path)?),
        None => None,
    };
    Ok(Demo {
        work,
        harts: harts as u8,
        trace,
    })
}

// What the command of this name runs, with its own options.
fn work_at(name: &str, given: &ArgMatches<'_>) -> Result<Work, DemoError> {
    if name == ARRAY {
        return Ok(Work::Program);
    }
    let (library, most) = library_of(name);
    let count = number_at(given, "count", 0, u64::from(most))?;
    let seed = number_at(given, "seed", 0, u64::MAX)?;
    Ok(Work::Library(Made {
        library,
        count: count as u32,
        seed,
    }))
}

// The library of this name, and its greatest count. A name that is none of the others is that of the empty tasks.
fn library_of(name: &str) -> (Library, u32) {
    match name {
        "sort" => (Library::Sort, 100_000_000),
        "matrix" => (Library::Matrix, 4_000),
        "nested" => (Library::Nested, 10_000),
        "flat" => (Library::Flat, 10_000),
        _ => (Library::Empty, 100_000_000),
    }
}

// The number from `least` to `most` that an option has.
fn number_at(
    given: &ArgMatches<'_>,
    name: &'static str,
    least: u64,
    most: u64,
) -> Result<u64, DemoError>
    ensures { IfOk result (λ number. (least ≤ number) × (number ≤ most)) }
{
    let Some(text) = given.get_str(name) else {
        return Err(DemoError::NotInRange(name, least, most));
    };
    match text.parse::<u64>() {
        Ok(number) if least <= number && number <= most => Ok(number),
        _ => Err(DemoError::NotInRange(name, least, most)),
    }
}

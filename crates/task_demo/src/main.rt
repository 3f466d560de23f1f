//! Runs the task libraries on 1 to 64 harts: `task_demo sort --count N --seed X --harts N [--trace FILE]`, and programs of the array
//! language: `task_demo array --harts N [--trace FILE] < PROGRAM`.
//!
//! The commands on a made input are `sort` (a list of numbers), `matrix` (a product), `nested` (rows that are sorted and added up),
//! `flat` (the same, without tasks inside a row) and `empty` (calls of `fork_join` with two empty tasks). Standard output gets one
//! check sum, or of `array` the lines of the program's arrays. Neither depends on the number of harts. Standard error gets the time
//! of the run, or the line that reports why a program isn't run, and FILE the events of the run as Chrome's trace events.
#![tactic(auto)]

mod error;
mod inputs;
mod pairs;
mod runs;
#[cfg(test)]
mod tests;
mod traces;
mod words;

use crate::error::DemoError;
use crate::inputs::text_of;
use crate::runs::{Output, Ran};
use crate::traces::run_traced;
use crate::words::{Work, demo_of};
use outside_io::words_of;
use std::alloc::Global;
use std::io;
use std::io::{Read, Write};
use std::process::ExitCode;
use std::rt::{Env, Files};
use std::sync::Wait;
use std::thread::Threads;
use std::time::Clock;

// Runs what the words of the command line request.
fn run<R: Threads + Wait + Clock + Files + Env + AllocGlobal + Sync, I: Read + Drop>(
    rt: &R,
    alloc: Global,
    stdin: I,
) -> Result<Ran, DemoError> {
    let words = words_of(rt)?;
    let demo = demo_of(alloc, &words)?;
    let text = match demo.work {
        Work::Library(_) => Vec::new(alloc),
        Work::Program => text_of(alloc, stdin)?,
    };
    run_traced(rt, alloc, &demo, &text)
}

fn main(rt: HostRuntime) -> io::Result<ExitCode> {
    match run(&rt, rt.alloc(), rt.stdin()) {
        Ok(Ran { output, took }) => {
            let micros = took.as_micros();
            match output {
                Output::Sum(sum) => println!(rt; "{sum}")?,
                Output::Lines(lines) => rt.stdout().write_all(&lines)?,
            }
            eprintln!(rt; "{micros} us")?;
            Ok(ExitCode::SUCCESS)
        }
        Err(DemoError::Words(error)) => {
            error.print(&rt)?;
            Ok(ExitCode::from(error.exit_code() as u8))
        }
        Err(error) => {
            match &error {
                // Why no prefix: it is the line of `lithe_run`, with its newline.
                DemoError::Refused(line) => rt.stderr().write_all(line)?,
                _ => eprintln!(rt; "task_demo: {error}")?,
            }
            Ok(ExitCode::from(error.status()))
        }
    }
}

//! Runs cases that are data. Each file that its words name has cases, and each case has a call's words, its input, the status,
//! and the bytes that it writes and reports. Begin with `case.rt`, which has the form of a file.
#![tactic(auto)]

mod case;
mod number;
mod serve;

use case::Case;
use serve::{Served, make_call};
use std::io::Print;
use std::rt::Files;
use std::sync::Wait;
use std::thread::Threads;
use std::{env, fs, io};

// Adds the lines of a text to a case.
fn add_lines<R: AllocGlobal + Files>(rt: &R, case: &mut Case, lines: &str) -> io::Result<()> {
    for line in lines.split('\n') {
        let (word, rest) = line.split_once(' ').unwrap_or((line, ""));
        match case.stream(word) {
            Some(stream) => stream.extend_from_slice(&fs::read(rt, rest)?)?,
            None => case.add(rt.alloc(), word, rest)?,
        }
    }
    Ok(())
}

// The case of a text, of which the first line is its name, with the lines of all cases.
fn read<R: AllocGlobal + Files>(rt: &R, of_all: &str, text: &str) -> io::Result<Case> {
    let (name, lines) = text.split_once('\n').unwrap_or((text, ""));
    let mut case = Case::new(rt.alloc(), name)?;
    add_lines(rt, &mut case, of_all)?;
    add_lines(rt, &mut case, lines)?;
    Ok(case)
}

// Runs a case for each of its numbers, and reports those that end otherwise. Returns whether none does.
fn holds<R: AllocGlobal + Print + Threads + Wait + Sync>(
    rt: &R,
    file: &str,
    case: &Case,
) -> io::Result<bool> {
    let mut all = case.is_known;
    if !all {
        println!(rt; "{file}, case {}: a line with an unknown word", case.name)?;
    }
    for number in case.numbers() {
        let got = make_call(rt, rt.alloc(), case, number)?;
        if !got.is_of(case, number) {
            all = false;
            report(rt, file, case, number, &got)?;
        }
    }
    Ok(all)
}

// Reports a case that ends otherwise.
fn report<R: Print>(rt: &R, file: &str, case: &Case, number: u32, got: &Served) -> io::Result<()> {
    println!(rt;
        "{file}, case {}, number {number}: status {}",
        case.name, got.status
    )?;
    report_bytes(rt, "wrote", &got.out)?;
    report_bytes(rt, "reported", &got.err)
}

// Reports the bytes of a stream, if they are a text.
fn report_bytes<R: Print>(rt: &R, what: &str, bytes: &[u8]) -> io::Result<()> {
    let text = str::from_utf8(bytes).unwrap_or("no text");
    println!(rt; "  {what} {} bytes: {text}", bytes.len())
}

// Runs the cases of a file. Returns their number, and how many end otherwise.
fn run_file<R: AllocGlobal + Files + Print + Threads + Wait + Sync>(
    rt: &R,
    file: &str,
) -> io::Result<(u32, u32)> {
    let text = fs::read_to_string(rt, file)?;
    let (of_all, _) = text.split_once("\ncase ").unwrap_or((&text, ""));
    let mut counts = (0u32, 0u32);
    for part in text.split("\ncase ").skip(1) {
        let case = read(rt, of_all, part)?;
        counts.0 = counts.0.saturating_add(1);
        if !holds(rt, file, &case)? {
            counts.1 = counts.1.saturating_add(1);
        }
    }
    Ok(counts)
}

fn main(rt: HostRuntime) -> io::Result<()> {
    for word in env::args(&rt)?.skip(1) {
        let (cases, others) = run_file(&rt, word.as_str())?;
        println!(rt; "{word}: {cases} cases, {others} not as expected")?;
    }
    Ok(())
}

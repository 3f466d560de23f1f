//! From words to a command.
ghost use Rattle.std.specs.Prelude.{◌≡◌, ◌≤◌, map, string_bytes, IfOk, IfSome, None, codes};
ghost use Rattle.std.specs.List.{list_any};
ghost use Rattle.std.specs.Str.{bytes_eq};
ghost use Rattle.clap.specs.Words.{FailsBy, fault_of, kind_of, rows_of, found_of, subcommand_of, subcommand_rows_of};
ghost use Rattle.clap.specs.declared.error.kind.ErrorKind.TheVariants.{OutOfMemory};
ghost use Rattle.command_words.specs.App.{lithe_app};
ghost use Rattle.command_words.specs.Parsed.{parsed_from, command_at, make_at, harts_at, number_at};
ghost use Rattle.command_words.specs.Form.{form_of};

use crate::app::commands;
use crate::command::Command;
use crate::number::number_in;
use clap::error::ErrorKind;
use clap::{ArgMatches, Error};
use std::alloc::{AllocError, Global};

/// The command that the words give; `None` exactly if they are no form of a command.
///
/// # Errors
///
/// `AllocError` if an allocation fails.
///
/// # Memory
///
/// It allocates the commands and the matches of `clap`.
pub fn command_of(alloc: Global, words: &[String]) -> Result<Option<Command>, AllocError>
    ensures { IfOk result (λ command. command ≡ form_of (map string_bytes words.now)) }
{
    if has_dashes(words) {
        return Ok(None);
    }
    match matches_of(alloc, words) {
        Ok(matches) => Ok(parsed(&matches)),
        Err(error) => refused(error),
    }
}

// Whether a word is `--` alone, which clap would take.
fn has_dashes(words: &[String]) -> bool
    ensures { result ≡ list_any (λ word. bytes_eq (string_bytes word) (codes "--")) words.now }
{
    words.iter().any(|word| word.as_str() == "--")
}

// What clap finds in the words.
fn matches_of<'a>(alloc: Global, words: &'a [String]) -> Result<ArgMatches<'a>, Error>
    ensures kinds { FailsBy (fault_of lithe_app (map string_bytes words.now)) result }
    ensures rows { IfOk result
        (λ m. subcommand_rows_of m ≡ subcommand_of lithe_app (map string_bytes words.now)) }
{
    let command = commands(alloc)?;
    command.try_get_matches_from(words)
}

// Words that clap refuses are no form, unless an allocation failed.
fn refused(error: Error) -> Result<Option<Command>, AllocError>
    ensures none { IfOk result (λ command. command ≡ None) }
    ensures cause { IfOk result (λ _. kind_of error ≡ OutOfMemory → ⊥) }
{
    if error.kind() == ErrorKind::OutOfMemory {
        return Err(AllocError);
    }
    Ok(None)
}

// The command of clap's matches.
fn parsed(matches: &ArgMatches<'_>) -> Option<Command>
    ensures { result ≡ parsed_from (subcommand_rows_of matches.now) }
{
    match matches.subcommand() {
        Some((name, given)) => command_at(name, given),
        None => None,
    }
}

// The command of this name with the options that were given.
fn command_at(name: &str, given: &ArgMatches<'_>) -> Option<Command>
    ensures { result ≡ command_at name.now (rows_of (found_of given.now)) }
{
    match name {
        "solo" => Some(Command::Solo),
        "make" => make(given),
        "run" => Some(Command::Run(harts(given)?)),
        "tally" => Some(Command::Tally(harts(given)?)),
        "pipe" => Some(Command::Pipe(harts(given)?)),
        "audit" => Some(Command::Audit(harts(given)?)),
        _ => None,
    }
}

// The command that makes a program.
fn make(given: &ArgMatches<'_>) -> Option<Command>
    ensures { result ≡ make_at (rows_of (found_of given.now)) }
{
    let seed = number_at(given, "seed", 0, u64::MAX)?;
    let size = number_at(given, "size", 1, 40)? as u8;
    let harts = harts(given)?;
    Some(Command::Make { seed, size, harts })
}

// The number of harts.
fn harts(given: &ArgMatches<'_>) -> Option<u8>
    ensures { result ≡ harts_at (rows_of (found_of given.now)) }
{
    let harts = number_at(given, "harts", 1, 16)?;
    Some(harts as u8)
}

// The number from `least` to `most` that an option has.
fn number_at(given: &ArgMatches<'_>, name: &str, least: u64, most: u64) -> Option<u64>
    ensures same { result ≡ number_at least most name.now (rows_of (found_of given.now)) }
    ensures within { IfSome result (λ number. number ≤ most) }
{
    number_in(least, most, given.get_str(name)?)
}

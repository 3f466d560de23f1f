//! The commands as they are declared to clap.
ghost use Rattle.std.specs.Prelude.{◌≡◌, IfOk, codes, false};
ghost use Rattle.clap.specs.Words.{app_of, rule_of, with_rule};
ghost use Rattle.command_words.specs.App.{lithe_app, needed, program_app, bare_app, make_app};
ghost use Rattle.clap.specs.declared.builder.command.Command.TheViews.{out-Command};

use clap::{Arg, ArgAction, Command};
use std::alloc::{AllocError, Global};

// The commands with `--harts` as their only option.
const HARTS_COMMANDS: [&str; 4] = ["run", "tally", "pipe", "audit"];

/// The commands, each with its options.
///
/// Why: clap has no help, no version and one level of commands, and each option is required with one value. Values stay text,
/// and `number_in` reads their digits. So the word behind `--name` is its value, whatever it is, and a repeated or unknown
/// option is no command.
///
/// # Errors
///
/// `AllocError` if an allocation fails.
///
/// # Memory
///
/// It allocates the commands and their options.
pub fn commands<'a>(alloc: Global) -> Result<Command<'a>, AllocError>
    ensures { IfOk result (λ c. app_of c ≡ lithe_app) }
{
    let solo = bare(alloc, "solo");
    let make = make(alloc)?;
    let first = top(alloc).subcommand(solo)?;
    let mut app = first.subcommand(make)?;
    for name in HARTS_COMMANDS {
        let command = with_harts(alloc, name)?;
        app = app.subcommand(command)?;
    }
    Ok(app)
}

// The program, without its commands.
fn top<'a>(alloc: Global) -> Command<'a>
    ensures { app_of result ≡ program_app }
{
    Command::new(alloc, "lithe_run")
        .no_binary_name(true)
        .disable_help_flag(true)
        .disable_help_subcommand(true)
        .subcommand_required(true)
}

// A command with no option.
fn bare<'a>(alloc: Global, name: &'a str) -> Command<'a>
    ensures app { app_of result ≡ bare_app name.entry.now }
    ensures local { (out-Command result).has_globals ≡ false }
{
    Command::new(alloc, name).disable_help_flag(true)
}

// A command with a number of harts.
fn with_harts<'a>(alloc: Global, name: &'a str) -> Result<Command<'a>, AllocError>
    ensures app { IfOk result
        (λ c. app_of c ≡ with_rule (bare_app name.entry.now) (needed (codes "harts"))) }
    ensures local { IfOk result (λ c. (out-Command c).has_globals ≡ false) }
{
    let command = bare(alloc, name).arg(needed(alloc, "harts"))?;
    Ok(command)
}

// The command with a seed, a size and a number of harts.
fn make<'a>(alloc: Global) -> Result<Command<'a>, AllocError>
    ensures app { IfOk result (λ c. app_of c ≡ make_app) }
    ensures local { IfOk result (λ c. (out-Command c).has_globals ≡ false) }
{
    let first = bare(alloc, "make").arg(needed(alloc, "seed"))?;
    let second = first.arg(needed(alloc, "size"))?;
    let third = second.arg(needed(alloc, "harts"))?;
    Ok(third)
}

// An option that takes a value, and that its command needs.
fn needed<'a>(alloc: Global, name: &'a str) -> Arg<'a>
    ensures rule { rule_of result ≡ needed name.entry.now }
    ensures local { result.global ≡ false }
{
    Arg::new(alloc, name)
        .long(name)
        .action(ArgAction::Set)
        .required(true)
}

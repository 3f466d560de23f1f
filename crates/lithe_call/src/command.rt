//! The command of the words.
ghost use Rattle.std.specs.Prelude.{◌≡◌, ◌≤◌, Some, IfOk, IfErr, map, string_bytes};
ghost use Rattle.command_words.specs.Form.{form_of};
ghost use Rattle.run_audit.specs.Parts.{most_audited};
ghost use Rattle.command_words.specs.Parts.{harts_in, size_in};
ghost use Rattle.lithe_call.specs.Inputs.{limit_of};
ghost use Rattle.lithe_call.specs.Faults.{IsNoCommand};

use crate::fault::Fault;
use command_words::{Command, command_of};
use std::alloc::Global;

/// The greatest length of a program, in bytes.
pub const MOST_BYTES: usize = 65_536;

/// The greatest length of the input of an audit, in bytes: a program and an output.
pub const MOST_AUDITED: usize = 4_194_304;

/// The command that the words are a form of.
///
/// # Errors
///
/// `Fault::Usage` if the words are no form. `Fault::Memory` if an allocation fails while the words are read.
///
/// # Memory
///
/// It allocates the commands and the matches of `clap`.
pub fn parsed_command(alloc: Global, words: &[String]) -> Result<Command, Fault>
    ensures form { IfOk result (λ command. form_of (map string_bytes words.now) ≡ Some command) }
    ensures some_hart { IfOk result (λ command. 1 ≤ harts_in command) }
    ensures few_harts { IfOk result (λ command. harts_in command ≤ 16) }
    ensures some_size { IfOk result (λ command. 1 ≤ size_in command) }
    ensures small_size { IfOk result (λ command. size_in command ≤ 40) }
    ensures none { IfErr result (IsNoCommand (map string_bytes words.now)) }
{
    match command_of(alloc, words)? {
        Some(command) => Ok(command),
        None => Err(Fault::Usage),
    }
}

/// The number of harts of the plan of the command's program.
pub fn harts(command: Command) -> u8
    ensures { result ≡ harts_in command }
{
    match command {
        Command::Run(harts)
        | Command::Tally(harts)
        | Command::Pipe(harts)
        | Command::Audit(harts) => { harts }
        Command::Solo => 1,
        Command::Make { harts, .. } => harts,
    }
}

/// The greatest length of the command's input, in bytes. `make` reads none.
pub fn limit(command: Command) -> usize
    ensures same { result ≡ limit_of command }
    ensures few { result ≤ most_audited }
{
    match command {
        Command::Run(_) | Command::Tally(_) | Command::Pipe(_) | Command::Solo => MOST_BYTES,
        Command::Audit(_) => MOST_AUDITED,
        Command::Make { .. } => 0,
    }
}

//! The top call: from the words and the input to the output and the status.
ghost use Rattle.std.specs.Prelude.{◌≡◌, ◌≤◌, length, ℕ, map, string_bytes, vec_len, Some, None, IfOk, IfErr, IsErrOf};
ghost use Rattle.command_words.specs.declared.command.Command.{Command};
ghost use Rattle.command_words.specs.declared.command.Command.TheVariants.{Make};
ghost use Rattle.lithe_call.specs.declared.status.Status.{Status};
ghost use Rattle.lithe_call.specs.Printing.{Prints};
ghost use Rattle.command_words.specs.Form.{form_of};
ghost use Rattle.command_words.specs.Parts.{harts_in, size_in};
ghost use Rattle.lithe_call.specs.Inputs.{limit_of, ReadsAll, GivesTooMuch, FailsToRead};
ghost use Rattle.lithe_call.specs.Auditing.{status_of_ending};
ghost use Rattle.lithe_call.specs.Output.{IsAnswer};
ghost use Rattle.lithe_call.specs.Faults.{IsFault, IsNoOutput};
ghost use Rattle.lithe_call.specs.FaultOf.{status_of, line_of};
ghost use Rattle.lithe_call.specs.Status.{constant_text};
ghost use Rattle.lithe_call.specs.Served.{IsOutputFor, AreServed};

use crate::answer::{Answer, Ending};
use crate::audit::audited;
use crate::command::{limit, parsed_command};
use crate::fault::Fault;
use crate::pipe::piped;
use crate::reading::{ReadError, read_all};
use crate::run::{ran, ran_made, ran_solo};
use crate::status::{Status, constant_text};
use crate::tally::tallied;
use crate::writing::write_all;
use command_words::Command;
use outside_io::{Gate, Sink, Source};
use std::alloc::Global;
use std::sync::Wait;
use std::thread::Threads;

/// Serves the words: reads the input, runs its program and writes the output, or writes the error to `err`.
///
/// - `run --harts N`, N from 1 to 16, runs the program on N harts. More than one hart run on a thread each. It writes the
///   program's arrays and the journal of its transfers.
/// - `tally --harts N` does the same for branches and members that add into one cell of an array whose name ends in `_sum`.
/// - `pipe --harts N` does the same with members that overtake, if no two of their pieces cross.
/// - `solo` writes only the arrays.
/// - `audit --harts N` reads a program, a line `%%` and an output of `run`, and writes whether the output is the program's; if
///   it isn't, the status is Illegal.
/// - `make --seed X --size K --harts N`, K from 1 to 40, reads nothing. It generates a program, runs its printed text as `run`
///   does, and writes the summary of the run.
///
/// The whole output is built before its first byte is written, so an error leaves the output empty. For each status its text is
/// written to `err`, and a failure of `err` changes no status.
///
/// # Memory
///
/// It allocates the input, the program, its run and the output. If an allocation fails, the status is NoMemory.
pub fn lithe<R: Threads + Wait + Sync, A: Source, B: Sink, E: Sink, G: Gate>(
    rt: &R,
    alloc: Global,
    words: &[String],
    source: &mut A,
    out: &mut B,
    err: &mut E,
    gate: &G,
) -> Status
    // The clause `done` of this record is what the whole is for.
    ensures served { AreServed (record {
      left = A.left;
      read_faults = A.faults;
      taken = B.taken;
      write_faults = B.faults;
      printed = E.taken;
      print_faults = E.faults;
    }) (map string_bytes words.now) result source.old source.new out.old out.new err.old err.new }
{
    match output_of(rt, alloc, gate, words, source) {
        Err(fault) => print_fault(err, &fault),
        Ok(answer) => {
            if !write_all(out, &answer.text) {
                print(err, Status::WriteFault)
            } else {
                status_of_ending(answer.ending)
            }
        }
    }
}

/// Ends a run whose words aren't text, and so are no form: writes this to `err`, as `lithe` does for words that are no form.
pub fn no_form_for_words<E: Sink>(err: &mut E) -> Status
    ensures same { result ≡ Status.Usage }
    ensures printed { Prints (E.taken err.old) (E.faults err.old) (constant_text Status.Usage)
        (E.taken err.new) (E.faults err.new) }
{
    print(err, Status::Usage)
}

/// Ends a run that could not allocate its words: writes this to `err`, as `lithe` does for an allocation failure.
pub fn no_memory_for_words<E: Sink>(err: &mut E) -> Status
    ensures same { result ≡ Status.NoMemory }
    ensures printed { Prints (E.taken err.old) (E.faults err.old) (constant_text Status.NoMemory)
        (E.taken err.new) (E.faults err.new) }
{
    print(err, Status::NoMemory)
}

// The status of an output that was written.
fn status_of_ending(ending: Ending) -> Status
    ensures { result ≡ status_of_ending ending }
{
    match ending {
        Ending::Written => Status::Done,
        Ending::Illegal => Status::Illegal,
    }
}

// Writes the line that reports the fault, and returns its status.
fn print_fault<E: Sink>(err: &mut E, fault: &Fault) -> Status
    ensures same { result ≡ status_of fault.now }
    ensures printed { Prints (E.taken err.old) (E.faults err.old) (line_of fault.now)
        (E.taken err.new) (E.faults err.new) }
{
    let _ = write_all(err, fault.line());
    fault.status()
}

// Writes the status's text, if it is always the same, and returns the status.
fn print<E: Sink>(err: &mut E, status: Status) -> Status
    ensures same { result ≡ status }
    ensures printed { Prints (E.taken err.old) (E.faults err.old) (constant_text status)
        (E.taken err.new) (E.faults err.new) }
{
    let _ = write_all(err, constant_text(status));
    status
}

// The whole output of the command of the words.
fn output_of<R: Threads + Wait + Sync, G: Gate, A: Source>(
    rt: &R,
    alloc: Global,
    gate: &G,
    words: &[String],
    source: &mut A,
) -> Result<Answer, Fault>
    ensures output { IfOk result (λ answer. IsOutputFor (map string_bytes words.now)
        (A.left source.old) (A.left source.new) (status_of_ending answer.ending) answer.text.items) }
    ensures fault { IfErr result (λ fault. IsFault (map string_bytes words.now) fault
        (A.left source.old) (A.left source.new) (A.faults source.old) (A.faults source.new)) }
    ensures stays { form_of (map string_bytes words.now) ≡ None → source.new ≡ source.old }
    ensures made { (seed size harts : ℕ)
        → form_of (map string_bytes words.now) ≡ Some (Make seed size harts)
        → source.new ≡ source.old }
{
    let command = parsed_command(alloc, words)?;
    let bytes = input(alloc, source, command)?;
    answer_to(rt, alloc, gate, command, &bytes)
}

// The command's whole input. `make` has none, and reads nothing.
fn input<A: Source>(alloc: Global, source: &mut A, command: Command) -> Result<Vec<u8>, ReadError>
    ensures count { A.faults source.old ≤ A.faults source.new }
    ensures whole { IfOk result
        (λ bytes. ReadsAll command (A.left source.old) bytes.items (A.left source.new)) }
    ensures short { IfOk result (λ bytes. vec_len bytes ≤ limit_of command) }
    ensures too_long { IsErrOf result ReadError.TooLong
        → GivesTooMuch command (A.left source.old) (A.left source.new) }
    ensures failed { IsErrOf result ReadError.Failed
        → FailsToRead command (A.faults source.old) (A.faults source.new) }
    ensures made { (seed size harts : ℕ) → command ≡ Make seed size harts
        → source.new ≡ source.old }
{
    match command {
        Command::Make { .. } => Ok(Vec::new(alloc)),
        Command::Run(_)
        | Command::Tally(_)
        | Command::Pipe(_)
        | Command::Solo
        | Command::Audit(_) => read_all(alloc, source, limit(command)),
    }
}

// The output of the command for these bytes.
fn answer_to<R: Threads + Wait + Sync, G: Gate>(
    rt: &R,
    alloc: Global,
    gate: &G,
    command: Command,
    bytes: &[u8],
) -> Result<Answer, Fault>
    requires short { length bytes.now ≤ limit_of command }
    requires some_hart { 1 ≤ harts_in command }
    requires few_harts { harts_in command ≤ 16 }
    requires some_size { 1 ≤ size_in command }
    requires small_size { size_in command ≤ 40 }
    ensures output { IfOk result (IsAnswer command bytes.now) }
    ensures fault { IfErr result (IsNoOutput command bytes.now) }
{
    match command {
        Command::Run(harts) => ran(rt, alloc, gate, harts, bytes),
        Command::Solo => ran_solo(alloc, bytes),
        Command::Tally(harts) => tallied(rt, alloc, gate, harts, bytes),
        Command::Pipe(harts) => piped(rt, alloc, gate, harts, bytes),
        Command::Audit(harts) => audited(alloc, harts, bytes),
        Command::Make { seed, size, harts } => ran_made(rt, alloc, gate, seed, size, harts),
    }
}

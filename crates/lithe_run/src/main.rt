//! The program `lithe`: runs, audits and checks programs of the array language over Lithe. It reads the words of the command
//! line, and passes them to `lithe` of `lithe_call`, which has the commands. `docs/LANGUAGE.md` explains the commands, and the
//! directory `examples` has programs with their outputs.
#![tactic(auto)]

ghost use Rattle.std.specs.Prelude.{◌≡◌, map, string_bytes, IfOk, IfErr, IsErrOf};
ghost use Rattle.lithe_call.specs.declared.status.Status.{Status};
ghost use Rattle.lithe_call.specs.Status.{constant_text};
ghost use Rattle.lithe_call.specs.Printing.{Prints};
ghost use Rattle.lithe_call.specs.Served.{AreServed};

use lithe_call::{Status, lithe, no_form_for_words, no_memory_for_words};
use outside_io::{NoWords, OpenGate, Sink, Source, StdSink, StdSource, words_of};
use std::alloc::Global;
use std::process::ExitCode;
use std::sync::Wait;
use std::thread::Threads;

// Serves the words as `lithe` does, if they could be read. Otherwise an allocation failure is reported as such, and words that
// aren't text are no form of a command. Then it reads nothing, and writes nothing to the output.
fn serve<R: Threads + Wait + Sync, A: Source, B: Sink, E: Sink>(
    rt: &R,
    alloc: Global,
    words: Result<Vec<String>, NoWords>,
    source: &mut A,
    out: &mut B,
    err: &mut E,
) -> Status
    ensures not_text { IsErrOf words NoWords.NotText → result ≡ Status.Usage }
    ensures no_memory { IsErrOf words NoWords.NoMemory → result ≡ Status.NoMemory }
    ensures words_printed { IfErr words
        (λ _. Prints (E.taken err.old) (E.faults err.old) (constant_text result) (E.taken err.new)
        (E.faults err.new)) }
    ensures nothing_read { IfErr words (λ _. source.new ≡ source.old) }
    ensures nothing_written { IfErr words (λ _. out.new ≡ out.old) }

    // Where the words could be had, all that the contract of `lithe` says of them.
    ensures served { IfOk words (λ list. AreServed (record {
      left = A.left;
      read_faults = A.faults;
      taken = B.taken;
      write_faults = B.faults;
      printed = E.taken;
      print_faults = E.faults;
    }) (map string_bytes list.items) result source.old source.new out.old out.new err.old err.new) }
{
    match words {
        Ok(words) => lithe(rt, alloc, &words, source, out, err, &OpenGate),
        Err(NoWords::NotText) => no_form_for_words(err),
        Err(NoWords::NoMemory) => no_memory_for_words(err),
    }
}

fn main(rt: HostRuntime) -> ExitCode {
    let mut source = StdSource::new(rt.stdin());
    let mut out = StdSink::new(rt.stdout());
    let mut err = StdSink::new(rt.stderr());
    let words = words_of(&rt);
    let status = serve(&rt, rt.alloc(), words, &mut source, &mut out, &mut err);
    ExitCode::from(status.number())
}

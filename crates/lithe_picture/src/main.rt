//! Draws the journal of a run as a picture, in text or as SVG.
//!
//! The program reads a program of the array language, a line `%%` and an output of `run`, `tally` or `pipe` from standard
//! input, and writes the picture to standard output. `picture_call` does the work. `docs/PICTURES.md` has the words, the
//! statuses and both forms.
//!
//! # Example
//!
//! The gate runs the program with the words in the file `args` on the file `stdin`: `lithe_picture text --harts 2`.
#![tactic(auto)]

ghost use Rattle.std.specs.Prelude.{◌≡◌, map, string_bytes, IfOk, IfErr, IsErrOf};
ghost use Rattle.lithe_call.specs.declared.status.Status.{Status};
ghost use Rattle.lithe_call.specs.Printing.{Prints};
ghost use Rattle.picture_call.specs.Shown.{AreShown};
ghost use Rattle.picture_call.specs.Texts.{own_text};

use lithe_call::Status;
use outside_io::{NoWords, Sink, Source, StdSink, StdSource, words_of};
use picture_call::{no_memory_for_picture, no_picture_for_words, serve_picture};
use std::alloc::Global;
use std::process::ExitCode;

// Serves the words as `serve_picture` does. If there are none, because an allocation failed or they aren't text, it writes the
// cause to `err`, reads nothing and writes nothing to the output. Words that aren't text are no form.
fn serve<A: Source, B: Sink, E: Sink>(
    alloc: Global,
    words: Result<Vec<String>, NoWords>,
    source: &mut A,
    out: &mut B,
    err: &mut E,
) -> Status
    ensures not_text { IsErrOf words NoWords.NotText → result ≡ Status.Usage }
    ensures no_memory { IsErrOf words NoWords.NoMemory → result ≡ Status.NoMemory }
    ensures words_printed { IfErr words
        (λ _. Prints (E.taken err.old) (E.faults err.old) (own_text result) (E.taken err.new)
        (E.faults err.new)) }
    ensures nothing_read { IfErr words (λ _. source.new ≡ source.old) }
    ensures nothing_written { IfErr words (λ _. out.new ≡ out.old) }

    // If there are words, the contract of `serve_picture` holds for them.
    ensures shown { IfOk words (λ list. AreShown (record {
      left = A.left;
      read_faults = A.faults;
      taken = B.taken;
      write_faults = B.faults;
      printed = E.taken;
      print_faults = E.faults;
    }) (map string_bytes list.items) result source.old source.new out.old out.new err.old err.new) }
{
    match words {
        Ok(words) => serve_picture(alloc, &words, source, out, err),
        Err(NoWords::NotText) => no_picture_for_words(err),
        Err(NoWords::NoMemory) => no_memory_for_picture(err),
    }
}

fn main(rt: HostRuntime) -> ExitCode {
    let mut source = StdSource::new(rt.stdin());
    let mut out = StdSink::new(rt.stdout());
    let mut err = StdSink::new(rt.stderr());
    let words = words_of(&rt);
    let status = serve(rt.alloc(), words, &mut source, &mut out, &mut err);
    ExitCode::from(status.number())
}

//! The call for pictures: from the words and the input to the picture and the status.
ghost use Rattle.std.specs.Prelude.{◌≡◌, map, string_bytes, None, IfOk, IfErr};
ghost use Rattle.lithe_call.specs.declared.status.Status.{Status};
ghost use Rattle.lithe_call.specs.Auditing.{status_by};
ghost use Rattle.lithe_call.specs.FaultOf.{status_of};
ghost use Rattle.lithe_call.specs.Printing.{Prints};
ghost use Rattle.picture_call.specs.Causes.{IsFault};
ghost use Rattle.picture_call.specs.Pictures.{IsPictureFor};
ghost use Rattle.picture_call.specs.Shown.{AreShown};
ghost use Rattle.picture_call.specs.Texts.{fault_text, own_text};
ghost use Rattle.picture_call.specs.Words.{parsed_run};

use crate::drawing::drawn;
use crate::parsing::parsed;
use crate::picture::Picture;
use crate::text::{fault_text, own_text};
use lithe_call::{Fault, MOST_AUDITED, Status, read_all, write_all};
use outside_io::{Sink, Source};
use run_audit::Verdict;
use std::alloc::Global;

/// Serves the words: reads a program, a line `%%` and an output of its run, and writes a picture of the output's journal, or
/// writes to `err` why not.
///
/// `text --harts N` writes the picture as text, and `svg --harts N` as SVG, N from 1 to 16. The output is one of `run`, or with
/// `--of tally` or `--of pipe` one of that command. The program is checked as that command checks it.
///
/// The input, the statuses and their texts are those of `lithe` for `audit --harts N`, with two exceptions. A program is refused
/// as the command refuses it, and the status Usage lists the forms of these words. If the command can't write the output for the
/// program, the status is Illegal. The picture then shows the journal up to its first fault, and names the fault. The whole
/// picture is built before its first byte is written.
///
/// # Memory
///
/// It allocates the input, the program, the entries of the journal and the picture.
pub fn serve_picture<A: Source, B: Sink, E: Sink>(
    alloc: Global,
    words: &[String],
    source: &mut A,
    out: &mut B,
    err: &mut E,
) -> Status
    // The clause `done` of this record is what the whole is for.
    ensures shown { AreShown (record {
      left = A.left;
      read_faults = A.faults;
      taken = B.taken;
      write_faults = B.faults;
      printed = E.taken;
      print_faults = E.faults;
    }) (map string_bytes words.now) result source.old source.new out.old out.new err.old err.new }
{
    match picture_for(alloc, words, source) {
        Err(fault) => print_fault(err, &fault),
        Ok(picture) => {
            if !write_all(out, &picture.text) {
                print(err, Status::WriteFault)
            } else {
                status_by(picture.verdict)
            }
        }
    }
}

/// Ends a call whose words aren't text, and so are no form: writes to `err` what `serve_picture` writes for words that are no
/// form.
pub fn no_picture_for_words<E: Sink>(err: &mut E) -> Status
    ensures same { result ≡ Status.Usage }
    ensures printed { Prints (E.taken err.old) (E.faults err.old) (own_text Status.Usage)
        (E.taken err.new) (E.faults err.new) }
{
    print(err, Status::Usage)
}

/// Ends a call that could not allocate its words: writes to `err` what `serve_picture` writes for an allocation failure.
pub fn no_memory_for_picture<E: Sink>(err: &mut E) -> Status
    ensures same { result ≡ Status.NoMemory }
    ensures printed { Prints (E.taken err.old) (E.faults err.old) (own_text Status.NoMemory)
        (E.taken err.new) (E.faults err.new) }
{
    print(err, Status::NoMemory)
}

// The status of a picture that was written.
fn status_by(verdict: Verdict) -> Status
    ensures { result ≡ status_by verdict }
{
    match verdict {
        Verdict::Legal(_) => Status::Done,
        Verdict::Differs(_) | Verdict::Illegal(_) => Status::Illegal,
    }
}

// Writes the text that reports the fault, and returns its status.
fn print_fault<E: Sink>(err: &mut E, fault: &Fault) -> Status
    ensures same { result ≡ status_of fault.now }
    ensures printed { Prints (E.taken err.old) (E.faults err.old) (fault_text fault.now)
        (E.taken err.new) (E.faults err.new) }
{
    let _ = write_all(err, fault_text(fault));
    fault.status()
}

// Writes the status's text, where that is always the same, and returns the status.
fn print<E: Sink>(err: &mut E, status: Status) -> Status
    ensures same { result ≡ status }
    ensures printed { Prints (E.taken err.old) (E.faults err.old) (own_text status)
        (E.taken err.new) (E.faults err.new) }
{
    let _ = write_all(err, own_text(status));
    status
}

// The picture that the words request, of what the source gives.
fn picture_for<A: Source>(alloc: Global, words: &[String], source: &mut A) -> Result<Picture, Fault>
    ensures picture { IfOk result (λ picture. IsPictureFor (map string_bytes words.now)
        (A.left source.old) (A.left source.new) (status_by picture.verdict) picture.text.items) }
    ensures fault { IfErr result (λ fault. IsFault (map string_bytes words.now) fault
        (A.left source.old) (A.left source.new) (A.faults source.old) (A.faults source.new)) }
    ensures stays { parsed_run (map string_bytes words.now) ≡ None → source.new ≡ source.old }
{
    let wanted = parsed(alloc, words)?;
    let bytes = read_all(alloc, source, MOST_AUDITED)?;
    drawn(alloc, wanted, &bytes)
}

//! What the words request.
ghost use Rattle.std.specs.Prelude.{◌≡◌, ◌≤◌, ◌∷◌, [], Some, IfOk, IfErr, map, option_map, string_bytes, codes};
ghost use Rattle.picture_call.specs.Causes.{IsUnparsed};
ghost use Rattle.picture_call.specs.Words.{parsed_form, form_named, parsed_run, runner_named};

use crate::options::values;
use crate::picture::Form;
use crate::runner::Runner;
use lithe_call::{Fault, harts, parsed_command};
use std::alloc::{AllocError, Global};

/// What the words request: a picture in `form`, of an output of the command `runner` on `harts` harts, 1 to 16.
#[derive(Clone, Copy, Debug, PartialEq, Eq)]
pub struct Wanted {
    pub form: Form,
    pub runner: Runner,
    pub harts: u8,
}

/// Reads the words: the first names the form of the picture, and the options follow it.
///
/// # Errors
///
/// `Fault::Usage` if the words request no picture, and `Fault::Memory` if an allocation fails.
///
/// # Memory
///
/// It allocates the words of a command `run` with this number of harts, and what `parsed_command` allocates to read them.
pub fn parsed(alloc: Global, words: &[String]) -> Result<Wanted, Fault>
    ensures named { IfOk result
        (λ parsed. parsed_form (map string_bytes words.now) ≡ Some parsed.form) }
    ensures parsed { IfOk result
        (λ parsed. parsed_run (map string_bytes words.now) ≡ Some (parsed.runner, parsed.harts)) }
    ensures some_hart { IfOk result (λ parsed. 1 ≤ parsed.harts) }
    ensures few_harts { IfOk result (λ parsed. parsed.harts ≤ 16) }
    ensures none { IfErr result (IsUnparsed (map string_bytes words.now)) }
{
    let Some((first, options)) = words.split_first() else {
        return Err(Fault::Usage);
    };
    let Some(form) = form_named(first) else {
        return Err(Fault::Usage);
    };
    let Some((value, of)) = values(options) else {
        return Err(Fault::Usage);
    };
    let Some(runner) = runner_named(of) else {
        return Err(Fault::Usage);
    };
    let run = run_with(alloc, value)?;
    let command = match parsed_command(alloc, &run) {
        Ok(command) => command,
        Err(fault) => return Err(fault),
    };
    Ok(Wanted {
        form,
        runner,
        harts: harts(command),
    })
}

// The form that a word names.
fn form_named(word: &str) -> Option<Form>
    ensures { result ≡ form_named word.now }
{
    if word == "text" {
        return Some(Form::Text);
    }
    if word == "svg" {
        return Some(Form::Svg);
    }
    None
}

// The command that the value of `--of` names, and `run` without a value.
fn runner_named(of: Option<&str>) -> Option<Runner>
    ensures { result ≡ runner_named (option_map (λ name. name.now) of.entry) }
{
    let Some(name) = of else {
        return Some(Runner::Run);
    };
    if name == "run" {
        return Some(Runner::Run);
    }
    if name == "tally" {
        return Some(Runner::Tally);
    }
    if name == "pipe" {
        return Some(Runner::Pipe);
    }
    None
}

// The words of `run` with this number of harts. Why: numbers of harts then have one reader, that of `lithe`.
fn run_with(alloc: Global, harts: &str) -> Result<Vec<String>, AllocError>
    ensures { IfOk result (λ words. map string_bytes words.items
        ≡ codes "run" ∷ codes "--harts" ∷ harts.now ∷ []) }
{
    let mut words = Vec::new(alloc);
    words.push(String::from_str(alloc, "run")?)?;
    words.push(String::from_str(alloc, "--harts")?)?;
    words.push(String::from_str(alloc, harts)?)?;
    Ok(words)
}

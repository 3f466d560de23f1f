//! From a program and an output of it to the picture of the output's journal.
ghost use Rattle.std.specs.Prelude.{◌≡◌, ◌≤◌, IfOk, MatchResult, Ok, Err, length};
ghost use Rattle.array_tree.specs.Trees.{declarations_of, program_of};
ghost use Rattle.transfer_table.specs.Plan.{site_count, most_entries};
ghost use Rattle.array_meaning.specs.Plans.{plan_of};
ghost use Rattle.array_meaning.specs.Stores.{AreSized, arrays_of};
ghost use Rattle.array_meaning.specs.Work.{final_store};
ghost use Rattle.array_meaning.specs.Entered.{entered_of};
ghost use Rattle.array_eval.specs.ArrayText.{array_text};
ghost use Rattle.journal_text.specs.Reading.{lines_of};
ghost use Rattle.journal_text.specs.Seen.{Reads};
ghost use Rattle.run_audit.specs.Audit.{audit_of};
ghost use Rattle.run_audit.specs.Parts.{most_audited};
ghost use Rattle.picture_call.specs.Picture.{behind, entries_behind, journal_behind, picture_by, picture_of, pictured};
ghost use Rattle.picture_call.specs.Seen.{picture_seen};

use crate::shapes::shapes_of;
use array_tree::Program;
use entered_sites::entered;
use journal_picture::{Kind, Shape, svg_picture, text_picture};
use journal_text::{TextFault, cut_line, read_entries};
use run_audit::{Verdict, audit_by, verdict_line};
use std::alloc::{AllocError, Global};
use transfer_table::{Entries, Entry, Plan};

/// What a picture is written as.
#[derive(Clone, Copy, Debug, PartialEq, Eq)]
pub enum Form {
    /// Text, at most 100 columns wide.
    Text,
    /// SVG 1.1, without scripts and outside parts.
    Svg,
}

/// A picture, and the verdict of the audit, which the picture has as a line.
#[derive(Drop)]
pub struct Picture {
    pub verdict: Verdict,
    pub text: Vec<u8>,
}

/// The picture of the journal of an output of at most 4,194,304 bytes, with the verdict on the output. A journal that isn't legal is
/// drawn up to its first fault, which is marked. The schedulers of the program's teams are of the kind `teams`.
///
/// Each array of the program must have a cell, and all together at most 4,096. The plan's sites must be the program's.
///
/// # Errors
///
/// `TextFault::Memory` if an allocation fails, else the first fault of the output's text, as `audit` returns it.
///
/// # Memory
///
/// It allocates the entries of the journal, the shapes of the sites and the picture.
#[tactic(auto, using(crate::proofs::Reading::stop))]
pub fn picture_of(
    alloc: Global,
    form: Form,
    teams: Kind,
    program: &Program,
    plan: &Plan,
    output: &[u8],
) -> Result<Picture, TextFault>
    requires short { length output.now ≤ most_audited }
    requires sized { AreSized (arrays_of (declarations_of program.now.arrays)) }
    requires parents { plan.now.parents ≡ plan_of (program_of program.now) }
    ensures picture { Reads picture_seen
        (picture_of form teams (program_of program.now) plan.now output.now) result }
    ensures verdict { Reads (λ picture. picture.verdict) (audit_of plan.now
        (entered_of (program_of program.now)) (array_text (program_of program.now)
        (final_store (program_of program.now))) output.now) result }
{
    let entered = entered_by_plan(alloc, program, plan)?;
    let verdict = verdict_on(alloc, program, plan, &entered, output)?;
    let picture = picture_by(alloc, form, teams, program, plan, &entered, verdict, output)?;
    Ok(picture)
}

// Of each site of the plan, whether the program enters it.
fn entered_by_plan(alloc: Global, program: &Program, plan: &Plan) -> Result<Vec<bool>, AllocError>
    requires sized { AreSized (arrays_of (declarations_of program.now.arrays)) }
    requires parents { plan.now.parents ≡ plan_of (program_of program.now) }
    ensures entered { IfOk result (λ list. list.items ≡ entered_of (program_of program.now)) }
    ensures each { IfOk result (λ list. length list.items ≡ site_count plan.now) }
{
    entered(alloc, program, plan.sites())
}

// The verdict of the audit, by the sites that the program enters.
fn verdict_on(
    alloc: Global,
    program: &Program,
    plan: &Plan,
    entered: &[bool],
    output: &[u8],
) -> Result<Verdict, TextFault>
    requires short { length output.now ≤ most_audited }
    requires sized { AreSized (arrays_of (declarations_of program.now.arrays)) }
    requires entered { entered.now ≡ entered_of (program_of program.now) }
    requires each { length entered.now ≡ site_count plan.now }
    ensures { Reads (λ verdict. verdict) (audit_of plan.now
        (entered_of (program_of program.now)) (array_text (program_of program.now)
        (final_store (program_of program.now))) output.now) result }
{
    audit_by(alloc, program, plan, entered, output)
}

// The picture that has this verdict, by the sites that the program enters.
fn picture_by(
    alloc: Global,
    form: Form,
    teams: Kind,
    program: &Program,
    plan: &Plan,
    entered: &[bool],
    verdict: Verdict,
    output: &[u8],
) -> Result<Picture, AllocError>
    requires short { length output.now ≤ most_audited }
    requires parents { plan.now.parents ≡ plan_of (program_of program.now) }
    requires entered { entered.now ≡ entered_of (program_of program.now) }
    requires each { length entered.now ≡ site_count plan.now }
    ensures { IfOk result (λ picture. picture_seen picture ≡ picture_by form
        teams (program_of program.now) plan.now output.now verdict) }
{
    let arrays = program.arrays.declarations.len();
    let list = entries_behind(alloc, plan, arrays, output)?;
    let shapes = shapes_of(alloc, teams, program)?;
    pictured(
        alloc,
        form,
        plan,
        entered,
        &shapes,
        verdict,
        list.as_slice(),
    )
}

// The entries of the journal that stands behind `arrays` array lines, if one does.
fn entries_behind(
    alloc: Global,
    plan: &Plan,
    arrays: usize,
    output: &[u8],
) -> Result<Entries, AllocError>
    requires { length output.now ≤ most_audited }
    ensures same { IfOk result (λ list. list ≡ entries_behind plan.now arrays output.now) }
    ensures few { IfOk result (λ list. length list ≤ most_entries) }
{
    match journal_behind(alloc, plan, arrays, output) {
        Ok(list) => Ok(list),
        Err(TextFault::Memory) => Err(AllocError),
        Err(_) => Ok(Entries::new(Vec::new(alloc))),
    }
}

// The journal that stands behind `arrays` array lines, or its first fault.
fn journal_behind(
    alloc: Global,
    plan: &Plan,
    arrays: usize,
    output: &[u8],
) -> Result<Entries, TextFault>
    requires { length output.now ≤ most_audited }
    ensures read { Reads (λ list. list) (journal_behind plan.now arrays output.now) result }
    ensures few { IfOk result (λ list. length list ≤ most_entries) }
{
    let journal = behind(arrays, output)?;
    read_entries(alloc, plan, journal)
}

// The text behind the first `lines` lines.
fn behind(lines: usize, text: &[u8]) -> Result<&[u8], TextFault>
    ensures first { MatchResult result
        (λ rest. behind lines (lines_of text.now) ≡ Ok (lines_of rest.now))
        (λ fault. behind lines (lines_of text.now) ≡ Err fault) }
    ensures short { IfOk result (λ rest. length rest.now ≤ length text.now) }
{
    let mut rest = text;
    for _i in 0..lines {
        let Some((_, after)) = cut_line(rest) else {
            return Err(TextFault::BadLine { line: 1 });
        };
        rest = after;
    }
    Ok(rest)
}

// The list as a picture that has the verdict as a line.
fn pictured(
    alloc: Global,
    form: Form,
    plan: &Plan,
    meant: &[bool],
    shapes: &[Shape],
    verdict: Verdict,
    list: &[Entry],
) -> Result<Picture, AllocError>
    requires few { length list.now ≤ most_entries }
    requires meant { length meant.now ≡ site_count plan.now }
    requires shapes { length shapes.now ≡ site_count plan.now }
    ensures { IfOk result (λ picture.
        picture_seen picture ≡ pictured form plan.now meant.now shapes.now verdict list.now) }
{
    let line = verdict_line(alloc, verdict)?;
    let text = match form {
        Form::Text => text_picture(alloc, plan, meant, shapes, list, &line)?,
        Form::Svg => svg_picture(alloc, plan, meant, shapes, list, &line)?,
    };
    Ok(Picture { verdict, text })
}

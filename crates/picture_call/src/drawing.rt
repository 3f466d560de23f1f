//! From bytes to the picture of the output that stands behind their program.
ghost use Rattle.std.specs.Prelude.{◌≡◌, ◌≤◌, length, IfOk, IfErr, OnOk, Ok};
ghost use Rattle.array_meaning.specs.Bounds.{most_bytes};
ghost use Rattle.array_meaning.specs.Plans.{plan_of};
ghost use Rattle.array_meaning.specs.Stores.{AreSized, arrays_of};
ghost use Rattle.array_tree.specs.Trees.{declarations_of, program_of};
ghost use Rattle.run_audit.specs.Parts.{most_audited};
ghost use Rattle.picture_call.specs.Picture.{picture_of};
ghost use Rattle.picture_call.specs.Seen.{picture_seen};
ghost use Rattle.lithe_call.specs.Programs.{table_plan};
ghost use Rattle.picture_call.specs.Causes.{HasNoPicture, HaveNoPicture, ReportsNoOutput, ReportsNoPicture};
ghost use Rattle.picture_call.specs.Pictures.{AreDrawn, HasPicture, IsRunBy, teams_of};

use crate::parsing::Wanted;
use crate::picture::{Form, Picture, picture_of};
use crate::runner::Runner;
use array_tree::Program;
use journal_picture::Kind;
use lithe_call::{Fault, MOST_BYTES, checked, crossing_fault, parsed, text_fault, with_rows};
use pipe_walk::pipe_check;
use run_audit::parts_of;
use std::alloc::Global;
use transfer_table::Plan;

/// Draws the journal of an output that stands behind its program and a line `%%`, with the verdict on the output.
///
/// It checks the program as the command `wanted.runner` does, on `wanted.harts` harts. `bytes` has at most 4,194,304 bytes.
///
/// # Errors
///
/// - `Fault::Syntax` if there is no line `%%`, the text before that line spells no program, or the text behind it is no output.
/// - `Fault::TooLong` if the text before the line `%%` has more than `MOST_BYTES` bytes, 65,536.
/// - `Fault::Refused` if the command refuses the program.
/// - `Fault::Memory` if an allocation fails.
///
/// # Memory
///
/// It allocates the program and what its check needs, the entries of the journal, the shapes of the sites, and the picture, or
/// the line of the fault. For `tally` it also allocates the program with rows.
pub fn drawn(alloc: Global, wanted: Wanted, bytes: &[u8]) -> Result<Picture, Fault>
    requires short { length bytes.now ≤ most_audited }
    requires some_hart { 1 ≤ wanted.harts }
    requires few_harts { wanted.harts ≤ 16 }
    ensures picture { IfOk result (λ picture.
        HasPicture wanted.form wanted.runner wanted.harts bytes.now (picture_seen picture)) }
    ensures fault { IfErr result (HasNoPicture wanted.runner wanted.harts bytes.now) }
{
    let Some((first, second)) = parts_of(bytes) else {
        return Err(Fault::Syntax(b"syntax: no line %%\n".to_vec(alloc)?));
    };
    if first.len() > MOST_BYTES {
        return Err(Fault::TooLong);
    }
    picture(alloc, wanted, first, second)
}

// The picture of the second part by the program of the first.
#[tactic(auto, using(crate::proofs::Refusing::syntax_no_picture))]
fn picture(alloc: Global, wanted: Wanted, first: &[u8], second: &[u8]) -> Result<Picture, Fault>
    requires short { length first.now ≤ most_bytes }
    requires short_output { length second.now ≤ most_audited }
    requires some_hart { 1 ≤ wanted.harts }
    requires few_harts { wanted.harts ≤ 16 }
    ensures drawn { IfOk result (λ picture. AreDrawn wanted.form wanted.runner wanted.harts
        (picture_seen picture) first.now second.now) }
    ensures fault { IfErr result (HaveNoPicture wanted.runner wanted.harts first.now second.now) }
{
    let program = parsed(alloc, first)?;
    picture_by(alloc, wanted, &program, second)
}

// The picture of an output of the program, by the rules of the command.
#[tactic(auto, using(crate::proofs::Refusing::check_no_picture, crate::proofs::Refusing::tally_no_picture, crate::proofs::Refusing::rows_no_picture, crate::proofs::Refusing::unpiped_no_picture))]
fn picture_by(
    alloc: Global,
    wanted: Wanted,
    program: &Program,
    output: &[u8],
) -> Result<Picture, Fault>
    requires short { length output.now ≤ most_audited }
    requires some_hart { 1 ≤ wanted.harts }
    requires few_harts { wanted.harts ≤ 16 }
    ensures runs { OnOk result (IsRunBy wanted.runner wanted.harts (program_of program.now)) }
    ensures drawn { IfOk result (λ picture. picture_of wanted.form
        (teams_of wanted.runner) (program_of program.now) (table_plan (program_of program.now) wanted.harts) output.now ≡ Ok (picture_seen picture)) }
    ensures fault { IfErr result
        (ReportsNoPicture wanted.runner wanted.harts (program_of program.now) output.now) }
{
    let Wanted {
        form,
        runner,
        harts,
    } = wanted;
    match runner {
        Runner::Run => {
            let accepted = checked(alloc, program, harts)?;
            by_plan(alloc, form, Kind::TEAM, program, accepted.plan(), output)
        }
        Runner::Tally => {
            let rows = with_rows(alloc, harts, program)?;
            let accepted = checked(alloc, &rows, harts)?;
            // Why of this plan: the program with rows has the plan of the given one.
            by_plan(alloc, form, Kind::TEAM, program, accepted.plan(), output)
        }
        Runner::Pipe => {
            let accepted = checked(alloc, program, harts)?;
            if let Err(fault) = pipe_check(alloc, &accepted) {
                return Err(crossing_fault(alloc, program, fault));
            }
            by_plan(alloc, form, Kind::PIPE, program, accepted.plan(), output)
        }
    }
}

// The picture by the program's plan, with schedulers of this kind for its teams.
fn by_plan(
    alloc: Global,
    form: Form,
    teams: Kind,
    program: &Program,
    plan: &Plan,
    output: &[u8],
) -> Result<Picture, Fault>
    requires short { length output.now ≤ most_audited }
    requires sized { AreSized (arrays_of (declarations_of program.now.arrays)) }
    requires parents { plan.now.parents ≡ plan_of (program_of program.now) }
    ensures drawn { IfOk result (λ picture. picture_of form teams
        (program_of program.now) plan.now output.now ≡ Ok (picture_seen picture)) }
    ensures fault { IfErr result (ReportsNoOutput plan.now (program_of program.now) output.now) }
{
    match picture_of(alloc, form, teams, program, plan, output) {
        Ok(picture) => Ok(picture),
        Err(fault) => Err(text_fault(alloc, fault)),
    }
}

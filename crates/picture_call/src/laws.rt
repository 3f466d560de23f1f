//! Laws of pictures. They are proved, and do nothing where they are called.
ghost use Rattle.picture_call.specs.Laws.{OutputsAreLegal, RunsEndAsAudits, RunsFailAsAudits};

/// For every input: a picture of an output of `run` ends with the status of the audit, and where there is none, with its line.
pub fn runs_end_as_audits()
    ensures ends { RunsEndAsAudits }
    ensures fails { RunsFailAsAudits }
{}

/// For every command whose outputs are drawn, every program and every output that the command writes for it: the verdict of the
/// picture is that the output is legal.
pub fn outputs_are_legal()
    ensures { OutputsAreLegal }
{}

//! A law of the audit, the contract of a function with an empty body.
ghost use Rattle.run_audit.specs.Legal.{LegalOutputsAreFound};

/// An audit's verdict is `Legal(n)` exactly for the legal outputs with `n` entries.
///
/// The law is for every plan, every list of a flag for each site, the array lines of every program and store, and every output.
/// An output is legal with `n` entries if it is the array lines, followed by the text of a list of `n` entries. The list must
/// be complete for the plan and the sites that are meant.
pub fn legal_outputs_are_found()
    ensures { LegalOutputsAreFound }
{}

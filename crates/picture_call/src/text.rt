//! The texts that are written to `err`.
ghost use Rattle.std.specs.Prelude.{◌≡◌};
ghost use Rattle.picture_call.specs.Texts.{fault_text, own_text};

use lithe_call::{Fault, Status, constant_text};

const USAGE: &[u8] = b"usage: lithe_picture text --harts N [--of run|tally|pipe]
       lithe_picture svg --harts N [--of run|tally|pipe]
";

/// The text of a status, where it is always the same: that of `lithe`, but for the forms of the words.
pub fn own_text(status: Status) -> &'static [u8]
    ensures { result.now ≡ own_text status }
{
    match status {
        Status::Usage => USAGE,
        _ => constant_text(status),
    }
}

/// The text that reports a fault.
pub fn fault_text(fault: &Fault) -> &[u8]
    ensures { result.now ≡ fault_text fault.now }
{
    match fault {
        Fault::Usage => USAGE,
        _ => fault.line(),
    }
}

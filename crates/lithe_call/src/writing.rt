//! Writes a whole output.
ghost use Rattle.std.specs.Prelude.{◌≤◌, IsTrue, IsFalse};
ghost use Rattle.outside_io.specs.Outside.{Rose, Appends};
ghost use Rattle.lithe_call.specs.Printing.{AppendsPrefix};

use outside_io::{Put, Sink};

/// Writes the bytes, and returns whether the sink took all of them. If not, the sink failed, and took a prefix.
pub fn write_all<B: Sink>(out: &mut B, bytes: &[u8]) -> bool
    ensures count { B.faults out.old ≤ B.faults out.new }
    ensures done { IsTrue result → Appends (B.taken out.old) bytes.now (B.taken out.new) }
    ensures failed { IsFalse result → Rose (B.faults out.old) (B.faults out.new) }
    ensures prefix { IsFalse result → AppendsPrefix (B.taken out.old) bytes.now (B.taken out.new) }
{
    let mut at = 0;
    while at < bytes.len() {
        match out.write(&bytes[at..]) {
            Put::Failed => return false,
            Put::Took(count) => at += count,
        }
    }
    true
}

//! Ports that wait.
ghost use Rattle.std.specs.Prelude.{◌≡◌, true};
ghost use Rattle.transfer_table.specs.Plan.{IsSite};
ghost use Rattle.hart_port.specs.PortView.{IsPortView, is_in, HasEnded, sees_gone, sees_empty};

use hart_port::{PlainPort, Port, Seen};

/// A port whose hart can wait for other harts. A wait that returns has seen what it waited for.
pub trait PatientPort: Port {
    /// Waits until the site is gone. If no other hart shares the table, the hart has unregistered or skipped it.
    fn until_gone(&mut self, hold: Self::Hold, site: u16)
        requires known { IsSite (Self.seen self.old).plan site }
        requires over { (Self.seen self.old).alone ≡ true
            → HasEnded (Self.seen self.old) site }
        ensures does { Self.seen self.new ≡ sees_gone (Self.seen self.old) site }
        ensures count { Self.refused self.new ≡ Self.refused self.old }
        ensures kept { IsPortView (Self.seen self.new) };

    /// Waits until the owner, which the hart has closed, is empty.
    fn until_empty(&mut self, hold: Self::Hold)
        requires home { is_in (Self.seen self.old).homes (Self.seen self.old).owner ≡ true }
        requires closed { is_in (Self.seen self.old).closed (Self.seen self.old).owner ≡ true }
        ensures does { Self.seen self.new ≡ sees_empty (Self.seen self.old) }
        ensures count { Self.refused self.new ≡ Self.refused self.old }
        ensures kept { IsPortView (Self.seen self.new) };
}

/// A single hart never waits: its first read sees what it waits for.
impl PatientPort for PlainPort {
    fn until_gone(&mut self, hold: (), site: u16) {
        // Why: reading the owner makes the port's invariant known. By it, a site that this hart unregistered or skipped is
        // gone.
        let _ = self.owner();
        if !self.see_gone(hold, site) {
            unreachable!()
        }
    }

    fn until_empty(&mut self, hold: ()) {
        match self.see_empty(hold) {
            Seen::Empty => {}
            _ => unreachable!(),
        }
    }
}

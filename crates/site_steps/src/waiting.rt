//! A port whose waits may last.
ghost use Rattle.std.specs.Prelude.{◌≡◌};

use crate::PatientPort;
use crossbeam_utils::Backoff;
use hart_port::{Entered, Port, Seen, Taken};
use std::sync::Wait;

/// A port whose waits may last: each wait reads again and again. The pauses between reads grow (`Backoff`), so that a long wait
/// uses little processor time. The view's `alone` is always false, so callers can't rely on exclusive access.
pub struct WaitingPort<'a, P, R> {
    port: P,
    rt: &'a R,
}

impl<'a, P: Drop, R> Drop for WaitingPort<'a, P, R> {
    fn drop(self) {
        let WaitingPort { port: _, rt: _ } = self;
    }
}

impl<'a, P, R> WaitingPort<'a, P, R> {
    /// Wraps the port. Its waits use this runtime.
    pub fn new(port: P, rt: &'a R) -> WaitingPort<'a, P, R>
        ensures { result.port ≡ port }
    {
        WaitingPort { port, rt }
    }

    /// The port inside.
    pub fn into_port(self) -> P
        ensures { result ≡ self.entry.port }
    {
        let WaitingPort { port, rt: _ } = self;
        port
    }
}

impl<'a, P: Port, R: Wait> Port for WaitingPort<'a, P, R> {
    type Hold = P::Hold;

    ghost use Rattle.site_steps.specs.Shared.{shared};

    ghost seen = { λ w. shared (P.seen w.port) };

    ghost refused = { λ w. P.refused w.port };

    ghost register_gives = { λ w site answer v. P.register_gives w.port site answer v.port };

    ghost skip_gives = { λ w site answer v. P.skip_gives w.port site answer v.port };

    ghost enter_gives = { λ w site answer v. P.enter_gives w.port site answer v.port };

    ghost gone_gives = { λ w site answer v. P.gone_gives w.port site answer v.port };

    ghost empty_gives = { λ w answer v. P.empty_gives w.port answer v.port };

    fn hart(&self) -> u8 {
        self.port.hart()
    }

    fn owner(&self) -> u16 {
        self.port.owner()
    }

    fn register(&mut self, hold: P::Hold, site: u16) -> Result<(), Taken> {
        self.port.register(hold, site)
    }

    fn skip(&mut self, hold: P::Hold, site: u16) -> Result<(), Taken> {
        self.port.skip(hold, site)
    }

    fn request(&mut self, hold: P::Hold, site: u16, count: u8) {
        self.port.request(hold, site, count);
    }

    fn try_enter(&mut self, hold: P::Hold, site: u16) -> Entered {
        self.port.try_enter(hold, site)
    }

    fn yield_hart(&mut self, hold: P::Hold) {
        self.port.yield_hart(hold);
    }

    fn close_site(&mut self, hold: P::Hold) {
        self.port.close_site(hold);
    }

    fn see_gone(&mut self, hold: P::Hold, site: u16) -> bool {
        self.port.see_gone(hold, site)
    }

    fn see_empty(&mut self, hold: P::Hold) -> Seen {
        self.port.see_empty(hold)
    }

    fn unregister(&mut self, hold: P::Hold) {
        self.port.unregister(hold);
    }
}

impl<'a, P: Port, R: Wait> PatientPort for WaitingPort<'a, P, R> {
    fn until_gone(&mut self, hold: P::Hold, site: u16) {
        let backoff = Backoff::new();
        'looks: for _ in self.rt.forever() {
            if self.port.see_gone(hold, site) {
                return;
            }
            backoff.snooze();
        }
        unreachable!()
    }

    fn until_empty(&mut self, hold: P::Hold) {
        let backoff = Backoff::new();
        'looks: for _ in self.rt.forever() {
            if matches!(self.port.see_empty(hold), Seen::Empty) {
                return;
            }
            backoff.snooze();
        }
        unreachable!()
    }
}

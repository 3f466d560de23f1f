//! A hart that is the home of sites of its own, one after another.
ghost use Rattle.std.specs.Prelude.{◌≡◌, ◌≤◌, true};
ghost use Rattle.transfer_table.specs.Plan.{IsSite, site_count};
ghost use Rattle.transfer_speeds.specs.Flat.{IsFlat};

use hart_port::{Port, Seen};
use transfer_table::Plan;

/// Whether all sites lie under the base.
pub fn is_flat(plan: &Plan) -> bool
    ensures { result ≡ true → IsFlat plan.now }
{
    for before in 0..plan.sites() {
        if plan.parent(before + 1) != 0 {
            return false;
        }
    }
    true
}

// The hart registers the site and unregisters it. Returns whether the hart is back in the base.
fn come_and_go<P: Port>(port: &mut P, hold: P::Hold, site: u16) -> bool
    requires known { IsSite (P.seen port.old).plan site }
    requires flat { IsFlat (P.seen port.old).plan }
    requires base { (P.seen port.old).owner ≡ 0 }
    ensures plan { (P.seen port.new).plan ≡ (P.seen port.old).plan }
    ensures back { result ≡ true → (P.seen port.new).owner ≡ 0 }
{
    if port.register(hold, site).is_err() {
        return true;
    }
    port.close_site(hold);
    let Seen::Empty = port.see_empty(hold) else {
        return false;
    };
    port.unregister(hold);
    true
}

/// The hart registers and unregisters each of the sites from `first + 1` to `last`.
pub fn visit_all<P: Port>(port: &mut P, hold: P::Hold, first: u16, last: u16)
    requires base { (P.seen port.old).owner ≡ 0 }
    requires flat { IsFlat (P.seen port.old).plan }
    requires last { last ≤ site_count (P.seen port.old).plan }
{
    for before in first..last {
        if !come_and_go(port, hold, before + 1) {
            return;
        }
    }
}

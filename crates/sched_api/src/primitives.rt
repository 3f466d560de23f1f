//! The six calls. Five make the port's transfer and the callback that belongs to it; `sched_reenter` only calls `enter`.
ghost use Rattle.std.specs.Prelude.{◌≡◌, ◌<◌, false};
ghost use Rattle.transfer_table.specs.Plan.{IsSite, parent as parent_of};
ghost use Rattle.hart_port.specs.Count.{RoseIfErr};
ghost use Rattle.hart_port.specs.PortView.{IsPortView, is_in, MayRequest, requested_by, yielded, MayUnregister, unregistered};
ghost use Rattle.sched_api.specs.Calls.{IsHeard, Lends, RoseUnlessLent, claim_of, try_of, requested_told, yielded_told, unregistered_told};

use crate::scheduler::{Lent, Next, Scheduler};
use hart_port::{Entered, Port, Taken};

/// Registers the site, and calls the parent.
///
/// # Errors
///
/// `Taken` if the site was claimed. The parent is then not called.
pub fn sched_register<P: Port, S: Scheduler>(
    port: &mut P,
    ph: P::Hold,
    parent: &mut S,
    sh: S::Hold,
    site: u16,
) -> Result<S::Heard, Taken>
    requires known { IsSite (P.seen port.old).plan site }
    requires child { (P.seen port.old).owner ≡ parent_of (P.seen port.old).plan site }
    ensures does { IsHeard S.Heard.heard S.hears site (P.seen port.old) parent.old result
        (P.seen port.new) parent.new }
    ensures count { RoseIfErr result (P.refused port.old) (P.refused port.new) }
    ensures gives { P.register_gives port.old site (claim_of result) port.new }
    ensures site { S.site_of parent.new ≡ S.site_of parent.old }
    ensures kept { IsPortView (P.seen port.new) }
{
    port.register(ph, site)?;
    Ok(parent.register(sh, site))
}

/// Requests `count` harts for the site, and calls the parent.
pub fn sched_request<P: Port, S: Scheduler>(
    port: &mut P,
    ph: P::Hold,
    parent: &mut S,
    sh: S::Hold,
    site: u16,
    count: u8,
) -> S::Heard
    requires known { IsSite (P.seen port.old).plan site }
    requires may { MayRequest (P.seen port.old) site count }
    ensures does { P.seen port.new ≡ requested_by (P.seen port.old) site count }
    ensures count { P.refused port.new ≡ P.refused port.old }
    ensures told { S.Heard.heard result ≡ requested_told site count }
    ensures hears { S.hears parent.old (requested_told site count) parent.new }
    ensures site { S.site_of parent.new ≡ S.site_of parent.old }
    ensures kept { IsPortView (P.seen port.new) }
{
    port.request(ph, site, count);
    parent.request(sh, site, count)
}

/// Unregisters the port's owner, and calls the parent.
pub fn sched_unregister<P: Port, S: Scheduler>(
    port: &mut P,
    ph: P::Hold,
    parent: &mut S,
    sh: S::Hold,
) -> S::Heard
    requires { MayUnregister (P.seen port.old) }
    ensures does { P.seen port.new ≡ unregistered (P.seen port.old) }
    ensures count { P.refused port.new ≡ P.refused port.old }
    ensures told { S.Heard.heard result ≡ unregistered_told (P.seen port.old).owner }
    ensures hears { S.hears parent.old (unregistered_told (P.seen port.old).owner) parent.new }
    ensures site { S.site_of parent.new ≡ S.site_of parent.old }
    ensures kept { IsPortView (P.seen port.new) }
{
    let child = port.owner();
    port.unregister(ph);
    parent.unregister(sh, child)
}

/// Gives the hart back from the port's owner to the parent, and calls the parent.
pub fn sched_yield<P: Port, S: Scheduler>(
    port: &mut P,
    ph: P::Hold,
    parent: &mut S,
    sh: S::Hold,
) -> S::Heard
    requires inside { 0 < (P.seen port.old).owner }
    requires guest { is_in (P.seen port.old).homes (P.seen port.old).owner ≡ false }
    ensures does { P.seen port.new ≡ yielded (P.seen port.old) }
    ensures count { P.refused port.new ≡ P.refused port.old }
    ensures told { S.Heard.heard result ≡ yielded_told (P.seen port.old).owner }
    ensures hears { S.hears parent.old (yielded_told (P.seen port.old).owner) parent.new }
    ensures site { S.site_of parent.new ≡ S.site_of parent.old }
    ensures kept { IsPortView (P.seen port.new) }
{
    let child = port.owner();
    port.yield_hart(ph);
    parent.yielded(sh, child)
}

/// Tries to enter the child's site, and returns the child's next action for the hart. If the hart isn't inside, the child isn't
/// called.
pub fn sched_enter<P: Port, S: Scheduler>(
    port: &mut P,
    ph: P::Hold,
    child: &mut S,
    sh: S::Hold,
) -> Lent<S::Ctx>
    requires known { IsSite (P.seen port.old).plan (S.site_of child.old) }
    requires child { (P.seen port.old).owner
        ≡ parent_of (P.seen port.old).plan (S.site_of child.old) }
    ensures does { Lends S.answers (S.site_of child.old) (P.seen port.old) child.old result
        (P.seen port.new) child.new }
    ensures count { RoseUnlessLent result (P.refused port.old) (P.refused port.new) }
    ensures gives { P.enter_gives port.old (S.site_of child.old) (try_of result) port.new }
    ensures site { S.site_of child.new ≡ S.site_of child.old }
    ensures kept { IsPortView (P.seen port.new) }
{
    match port.try_enter(ph, child.site()) {
        Entered::Inside => Lent::Inside(child.enter(sh)),
        Entered::NotWanted { shown } => Lent::NotWanted { shown },
        Entered::Moved { read, found } => Lent::Moved { read, found },
    }
}

/// The next action of the scheduler that the hart is in.
pub fn sched_reenter<S: Scheduler>(current: &mut S, sh: S::Hold) -> Next<S::Ctx>
    ensures does { S.answers current.old result current.new }
    ensures site { S.site_of current.new ≡ S.site_of current.old }
{
    current.enter(sh)
}

//! How the sites that no hart entered are registered and unregistered.
ghost use Rattle.std.specs.Prelude.{◌≡◌, ◌≤◌, true, false};
ghost use Rattle.transfer_table.specs.Plan.{IsSite, parent};
ghost use Rattle.hart_port.specs.PortView.{HasEnded};
ghost use Rattle.site_steps.specs.Back.{IsSettled, IsBack, ChildrenOver};
ghost use Rattle.site_steps.specs.Sweeps.{IsSwept, AreSwept};

use crate::ending::finish_site;
use crate::patience::PatientPort;
use crate::tree::SiteTree;

/// Registers and unregisters each child of the owner that no hart registered, if `is_needed`. Otherwise it does nothing.
///
/// If no other hart shares the table, `is_needed` may be false only if each child was unregistered or skipped. Callers pass
/// whether a piece of the owner has failed.
pub fn sweep_if<P: PatientPort>(tree: &SiteTree, port: &mut P, hold: P::Hold, is_needed: bool)
    requires plan { (P.seen port.old).plan ≡ tree.now }
    requires inner { IsSettled (P.seen port.old) }
    requires told { is_needed ≡ false → ChildrenOver (P.seen port.old) }
    ensures back { IsBack (P.seen port.old) (P.seen port.new) }
    ensures over { ChildrenOver (P.seen port.new) }
    ensures quiet { is_needed ≡ false → P.seen port.new ≡ P.seen port.old }
    ensures swept { is_needed ≡ true → AreSwept P.register_gives (P.seen port.old)
        (P.refused port.old) (P.seen port.new) (P.refused port.new) }
{
    if is_needed {
        sweep_children(tree, port, hold);
    }
}

/// Registers and unregisters each child of the owner that no hart registered, in rising order, with all sites inside it. The
/// port refused the register of each child that this call didn't unregister.
#[cycle(sweep)]
pub fn sweep_children<P: PatientPort>(tree: &SiteTree, port: &mut P, hold: P::Hold)
    requires plan { (P.seen port.old).plan ≡ tree.now }
    requires inner { IsSettled (P.seen port.old) }
    ensures back { IsBack (P.seen port.old) (P.seen port.new) }
    ensures over { ChildrenOver (P.seen port.new) }
    ensures count { P.refused port.old ≤ P.refused port.new }
    ensures swept { AreSwept P.register_gives (P.seen port.old) (P.refused port.old)
        (P.seen port.new) (P.refused port.new) }
{
    let mut next = tree.first_child(port.owner());
    'children: while let Some(child) = next {
        sweep_site(tree, port, hold, child);
        next = tree.next_sibling(child);
    }
}

// Registers and unregisters a child of the owner, unless the child is registered or skipped already.
#[cycle(sweep)]
fn sweep_site<P: PatientPort>(tree: &SiteTree, port: &mut P, hold: P::Hold, site: u16)
    requires plan { (P.seen port.old).plan ≡ tree.now }
    requires inner { IsSettled (P.seen port.old) }
    requires known { IsSite tree.now site }
    requires child { (P.seen port.old).owner ≡ parent tree.now site }
    ensures back { IsBack (P.seen port.old) (P.seen port.new) }
    ensures over { (P.seen port.new).alone ≡ true → HasEnded (P.seen port.new) site }
    ensures count { P.refused port.old ≤ P.refused port.new }
    ensures swept { IsSwept P.register_gives (P.seen port.old) (P.refused port.old)
        (P.seen port.new) (P.refused port.new) site }
{
    match port.register(hold, site) {
        Ok(()) => {
            sweep_children(tree, port, hold);
            finish_site(tree, port, hold);
            port.unregister(hold);
        }
        Err(_) => {}
    }
}

//! How a site is ended.
ghost use Rattle.std.specs.Prelude.{◌≡◌, true, false};
ghost use Rattle.hart_port.specs.PortView.{is_in, MayUnregister, ChildrenSeenGone};
ghost use Rattle.site_steps.specs.Back.{ChildrenOver, HasLooked};

use crate::patience::PatientPort;
use crate::tree::SiteTree;

/// Closes the owner, waits until each of its children is gone, and then until the owner is empty. Afterwards the owner may be
/// unregistered.
pub fn finish_site<P: PatientPort>(tree: &SiteTree, port: &mut P, hold: P::Hold)
    requires plan { (P.seen port.old).plan ≡ tree.now }
    requires home { is_in (P.seen port.old).homes (P.seen port.old).owner ≡ true }
    requires open_yet { is_in (P.seen port.old).closed (P.seen port.old).owner ≡ false }
    requires children { ChildrenOver (P.seen port.old) }
    ensures looked { HasLooked (P.seen port.old) (P.seen port.new) }
    ensures count { P.refused port.new ≡ P.refused port.old }
    ensures may { MayUnregister (P.seen port.new) }
{
    port.close_site(hold);
    see_children_gone(tree, port, hold);
    port.until_empty(hold);
}

/// Waits until each top site is gone.
pub fn finish_base<P: PatientPort>(tree: &SiteTree, port: &mut P, hold: P::Hold)
    requires plan { (P.seen port.old).plan ≡ tree.now }
    requires base { (P.seen port.old).owner ≡ 0 }
    requires children { ChildrenOver (P.seen port.old) }
    ensures looked { HasLooked (P.seen port.old) (P.seen port.new) }
    ensures count { P.refused port.new ≡ P.refused port.old }
    ensures gone { ChildrenSeenGone (P.seen port.new) }
{
    see_children_gone(tree, port, hold);
}

// Waits until each child of the owner is gone.
fn see_children_gone<P: PatientPort>(tree: &SiteTree, port: &mut P, hold: P::Hold)
    requires plan { (P.seen port.old).plan ≡ tree.now }
    requires children { ChildrenOver (P.seen port.old) }
    ensures looked { HasLooked (P.seen port.old) (P.seen port.new) }
    ensures count { P.refused port.new ≡ P.refused port.old }
    ensures closed { (P.seen port.new).closed ≡ (P.seen port.old).closed }
    ensures gone { ChildrenSeenGone (P.seen port.new) }
{
    let mut next = tree.first_child(port.owner());
    'children: while let Some(child) = next {
        port.until_gone(hold, child);
        next = tree.next_sibling(child);
    }
}

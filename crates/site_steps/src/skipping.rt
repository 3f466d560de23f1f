//! How a hart skips the sites that no hart shall enter.
ghost use Rattle.std.specs.Prelude.{◌≡◌, ◌≤◌, ◌+◌};
ghost use Rattle.site_steps.specs.Back.{IsSettled, IsBack};
ghost use Rattle.site_steps.specs.Skips.{HasSkipped, ChildrenClaimed};

use crate::tree::SiteTree;
use hart_port::Port;

/// Skips each child of the owner from `first` to before `end`, in rising order, with all sites inside it. The port refuses the
/// skip of a child that was claimed, and the child is unchanged.
pub fn skip_sites<P: Port>(tree: &SiteTree, port: &mut P, hold: P::Hold, first: u16, end: u16)
    requires plan { (P.seen port.old).plan ≡ tree.now }
    requires inner { IsSettled (P.seen port.old) }
    ensures back { IsBack (P.seen port.old) (P.seen port.new) }
    ensures skipped { HasSkipped P.skip_gives (P.seen port.old) (P.refused port.old)
        (P.seen port.new) (P.refused port.new) first end }
    ensures count { P.refused port.old ≤ P.refused port.new }
    ensures claimed { ChildrenClaimed (P.seen port.new) first end }
{
    'sites: for site in first..end {
        skip_child(tree, port, hold, site);
    }
}

// Skips the site if it is a child of the owner.
fn skip_child<P: Port>(tree: &SiteTree, port: &mut P, hold: P::Hold, site: u16)
    requires plan { (P.seen port.old).plan ≡ tree.now }
    ensures skipped { HasSkipped P.skip_gives (P.seen port.old) (P.refused port.old)
        (P.seen port.new) (P.refused port.new) site (site + 1) }
    ensures count { P.refused port.old ≤ P.refused port.new }
    ensures claimed { ChildrenClaimed (P.seen port.new) site (site + 1) }
{
    if tree.is_child(port.owner(), site) {
        let _ = port.skip(hold, site);
    }
}

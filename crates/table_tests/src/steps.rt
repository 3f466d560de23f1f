//! The steps of a hart at sites of a small plan: sites 1 and 5 at the top, 2 and 4 inside 1, 3 inside 2.
ghost use Rattle.std.specs.Prelude.{◌≡◌, IfOk, ◌∷◌, []};
ghost use Rattle.hart_port.specs.Plain.{first_view};

use hart_port::{Entered, PlainPort, Port};
use site_steps::{SiteTree, WaitingPort, finish_base, skip_sites, sweep_children, sweep_if};
use std::alloc::Global;
use std::sync::Wait;
use std::test::Fail;
use transfer_table::{Entry, Plan};

// A hart alone in the base of the plan, and the plan's tree.
struct Alone {
    tree: SiteTree,
    port: PlainPort,
}

fn small(alloc: Global) -> Result<Alone, Fail>
    ensures tree { IfOk result
        (λ s. s.tree ≡ record { harts = 1; parents = 0 ∷ 1 ∷ 2 ∷ 1 ∷ 0 ∷ [] }) }
    ensures port { IfOk result (λ s. s.port.view ≡ first_view s.tree) }
{
    let plan = Plan::new(alloc, 1, &[0, 1, 2, 1, 0])?;
    let tree = SiteTree::new(alloc, &plan)?;
    let port = PlainPort::new(alloc, &plan)?;
    Ok(Alone { tree, port })
}

// Whether the children of each site come in rising order.
fn are_in_order(tree: &SiteTree) -> bool
    requires { tree.now ≡ record { harts = 1; parents = 0 ∷ 1 ∷ 2 ∷ 1 ∷ 0 ∷ [] } }
{
    tree.first_child(0) == Some(1)
        && tree.first_child(1) == Some(2)
        && tree.first_child(3) == None
        && tree.next_sibling(1) == Some(5)
        && tree.next_sibling(2) == Some(4)
        && tree.next_sibling(4) == None
}

// Whether a child is distinguished from other sites.
fn are_told_apart(tree: &SiteTree) -> bool {
    tree.is_child(2, 3)
        && !tree.is_child(1, 3)
        && !tree.is_child(0, 0)
        && !tree.is_child(0, 6)
        && tree.plan().sites() == 5
}

#[test]
fn a_tree_has_children(rt: HostRuntime) -> Result<(), Fail> {
    let Alone { tree, port: _ } = small(rt.alloc())?;
    assert!(rt; are_in_order(&tree));
    assert!(rt; are_told_apart(&tree));
    Ok(())
}

/// The entries of a hart that sweeps the base.
const ALL: [Entry; 10] = [
    Entry::Register { hart: 0, site: 1 },
    Entry::Register { hart: 0, site: 2 },
    Entry::Register { hart: 0, site: 3 },
    Entry::Unregister { hart: 0, site: 3 },
    Entry::Unregister { hart: 0, site: 2 },
    Entry::Register { hart: 0, site: 4 },
    Entry::Unregister { hart: 0, site: 4 },
    Entry::Unregister { hart: 0, site: 1 },
    Entry::Register { hart: 0, site: 5 },
    Entry::Unregister { hart: 0, site: 5 },
];

// Whether each site comes and goes.
fn are_swept(small: Alone) -> bool
    requires tree { small.tree ≡ record { harts = 1; parents = 0 ∷ 1 ∷ 2 ∷ 1 ∷ 0 ∷ [] } }
    requires port { small.port.view ≡ first_view small.tree }
{
    let Alone { tree, mut port } = small;
    sweep_children(&tree, &mut port, ());
    finish_base(&tree, &mut port, ());
    port.finish().as_slice() == ALL.as_slice()
}

// Whether a second sweep leaves out the sites that were registered and unregistered.
fn are_swept_once(small: Alone) -> bool
    requires tree { small.tree ≡ record { harts = 1; parents = 0 ∷ 1 ∷ 2 ∷ 1 ∷ 0 ∷ [] } }
    requires port { small.port.view ≡ first_view small.tree }
{
    let Alone { tree, mut port } = small;
    sweep_if(&tree, &mut port, (), true);
    sweep_if(&tree, &mut port, (), true);
    port.finish().as_slice() == ALL.as_slice()
}

// Whether a waiting port does what the port inside it does.
fn are_swept_by_waits<R: Wait>(rt: &R, small: Alone) -> bool
    requires tree { small.tree ≡ record { harts = 1; parents = 0 ∷ 1 ∷ 2 ∷ 1 ∷ 0 ∷ [] } }
    requires port { small.port.view ≡ first_view small.tree }
{
    let Alone { tree, port } = small;
    let mut port = WaitingPort::new(port, rt);
    let is_first = port.hart() == 0 && port.owner() == 0;
    sweep_children(&tree, &mut port, ());
    finish_base(&tree, &mut port, ());
    is_first && port.into_port().finish().as_slice() == ALL.as_slice()
}

#[test]
fn each_site_comes_and_goes(rt: HostRuntime) -> Result<(), Fail> {
    assert!(rt; are_swept(small(rt.alloc())?));
    assert!(rt; are_swept_once(small(rt.alloc())?));
    assert!(rt; are_swept_by_waits(&rt, small(rt.alloc())?));
    Ok(())
}

const SKIPS: [Entry; 2] = [
    Entry::Skip { hart: 0, site: 1 },
    Entry::Skip { hart: 0, site: 5 },
];

// Whether the topmost sites of a span are skipped, each with all sites inside it, and a claimed site is unchanged.
fn are_skipped(small: Alone) -> bool
    requires tree { small.tree ≡ record { harts = 1; parents = 0 ∷ 1 ∷ 2 ∷ 1 ∷ 0 ∷ [] } }
    requires port { small.port.view ≡ first_view small.tree }
{
    let Alone { tree, mut port } = small;
    skip_sites(&tree, &mut port, (), 1, 5);
    skip_sites(&tree, &mut port, (), 1, 6);
    port.finish().as_slice() == SKIPS.as_slice()
}

// Whether no site requests the only hart, over a port that waits.
fn is_not_wanted<R: Wait>(rt: &R, small: Alone) -> bool
    requires tree { small.tree ≡ record { harts = 1; parents = 0 ∷ 1 ∷ 2 ∷ 1 ∷ 0 ∷ [] } }
    requires port { small.port.view ≡ first_view small.tree }
{
    let Alone { tree: _, port } = small;
    let mut port = WaitingPort::new(port, rt);
    port.try_enter((), 5) == Entered::NotWanted { shown: 0 } && !port.see_gone((), 1)
}

#[test]
fn sites_are_skipped_or_not_wanted(rt: HostRuntime) -> Result<(), Fail> {
    assert!(rt; are_skipped(small(rt.alloc())?));
    assert!(rt; is_not_wanted(&rt, small(rt.alloc())?));
    Ok(())
}

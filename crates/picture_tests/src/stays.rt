//! The stays of the harts of a short journal.
use journal_picture::{Stay, stays_of};
use std::test::Fail;
use transfer_table::{Entry, Plan};

#[test]
fn a_guest_is_in_the_base_in_the_site_and_in_the_base(rt: HostRuntime) -> Result<(), Fail> {
    let alloc = rt.alloc();
    let plan = Plan::new(alloc, 2, &[0])?;
    let list = [
        Entry::Register { hart: 0, site: 1 },
        Entry::Request {
            hart: 0,
            site: 1,
            count: 1,
        },
        Entry::Enter { hart: 1, site: 1 },
        Entry::Yield { hart: 1, site: 1 },
        Entry::Unregister { hart: 0, site: 1 },
    ];
    let stays = stays_of(alloc, &plan, 1, &list)?;
    let wanted = [
        Stay {
            hart: 1,
            site: 0,
            first: 0,
            last: Some(2),
        },
        Stay {
            hart: 1,
            site: 1,
            first: 3,
            last: Some(3),
        },
        Stay {
            hart: 1,
            site: 0,
            first: 4,
            last: None,
        },
    ];
    let same = stays.as_slice() == wanted.as_slice();
    assert!(rt; same);
    Ok(())
}

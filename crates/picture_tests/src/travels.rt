//! The numbers of harts.
use journal_picture::{Travels, travels_of};
use std::test::Fail;
use transfer_table::{Entry, Plan};

// Hart 1 enters site 1 twice, registers site 2 there the second time, and skips site 3. Hart 2 makes no entry.
const TWICE: [Entry; 10] = [
    Entry::Register { hart: 0, site: 1 },
    Entry::Request {
        hart: 0,
        site: 1,
        count: 2,
    },
    Entry::Enter { hart: 1, site: 1 },
    Entry::Yield { hart: 1, site: 1 },
    Entry::Enter { hart: 1, site: 1 },
    Entry::Register { hart: 1, site: 2 },
    Entry::Skip { hart: 1, site: 3 },
    Entry::Unregister { hart: 1, site: 2 },
    Entry::Yield { hart: 1, site: 1 },
    Entry::Unregister { hart: 0, site: 1 },
];

#[test]
fn a_site_that_is_entered_twice_counts_once(rt: HostRuntime) -> Result<(), Fail> {
    let alloc = rt.alloc();
    let plan = Plan::new(alloc, 3, &[0, 1, 2])?;
    let travels = travels_of(alloc, &plan, &TWICE)?;
    let wanted = [
        Travels {
            entries: 3,
            stays: 3,
            sites: 1,
        },
        Travels {
            entries: 7,
            stays: 7,
            sites: 2,
        },
        Travels {
            entries: 0,
            stays: 1,
            sites: 0,
        },
    ];
    assert!(rt; travels.as_slice() == wanted.as_slice());
    Ok(())
}

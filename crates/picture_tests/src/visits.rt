//! The numbers of sites.
use journal_picture::{Visits, visits_of};
use std::alloc::{AllocError, Global};
use std::test::Fail;
use transfer_table::{Entry, Plan};

// All harts but the first enter the site one after another, and come back.
fn crowd(alloc: Global, harts: u8) -> Result<Vec<Entry>, AllocError> {
    let mut list = Vec::new(alloc);
    list.push(Entry::Register { hart: 0, site: 1 })?;
    list.push(Entry::Request {
        hart: 0,
        site: 1,
        count: harts.saturating_sub(1),
    })?;
    for hart in 1..harts {
        list.push(Entry::Enter { hart, site: 1 })?;
    }
    for hart in 1..harts {
        list.push(Entry::Yield { hart, site: 1 })?;
    }
    list.push(Entry::Unregister { hart: 0, site: 1 })?;
    Ok(list)
}

#[test]
fn fifteen_guests_are_at_once_in_a_site(rt: HostRuntime) -> Result<(), Fail> {
    let alloc = rt.alloc();
    let plan = Plan::new(alloc, 16, &[0])?;
    let list = crowd(alloc, 16)?;
    assert_eq!(rt; list.len(), 33);
    let visits = visits_of(alloc, &plan, &list)?;
    let wanted = [Visits {
        guests: 15,
        entries: 17,
    }];
    assert!(rt; visits.as_slice() == wanted.as_slice());
    Ok(())
}

// Hart 1 comes back before it enters the site again, and makes an entry there for the site inside it.
const TWICE: [Entry; 9] = [
    Entry::Register { hart: 0, site: 1 },
    Entry::Request {
        hart: 0,
        site: 1,
        count: 2,
    },
    Entry::Enter { hart: 1, site: 1 },
    Entry::Yield { hart: 1, site: 1 },
    Entry::Enter { hart: 1, site: 1 },
    Entry::Register { hart: 1, site: 2 },
    Entry::Unregister { hart: 1, site: 2 },
    Entry::Yield { hart: 1, site: 1 },
    Entry::Unregister { hart: 0, site: 1 },
];

#[test]
fn a_guest_that_comes_twice_is_one_at_once(rt: HostRuntime) -> Result<(), Fail> {
    let alloc = rt.alloc();
    let plan = Plan::new(alloc, 3, &[0, 1])?;
    let visits = visits_of(alloc, &plan, &TWICE)?;
    let wanted = [
        Visits {
            guests: 1,
            entries: 5,
        },
        Visits {
            guests: 0,
            entries: 1,
        },
    ];
    assert!(rt; visits.as_slice() == wanted.as_slice());
    Ok(())
}

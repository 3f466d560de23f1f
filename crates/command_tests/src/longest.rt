//! The longest journals.
use crate::reported::reported;
use journal_text::write_entries;
use std::alloc::{AllocError, Global};
use std::test::Fail;
use transfer_table::{Entry, Plan};

// Adds all entries that one site can have with so many harts.
fn add_site(list: &mut Vec<Entry>, harts: u8, site: u16) -> Result<(), AllocError> {
    list.push(Entry::Register { hart: 0, site })?;
    for _ in 1..harts {
        list.push(Entry::Request {
            hart: 0,
            site,
            count: 1,
        })?;
    }
    for hart in 1..harts {
        list.push(Entry::Enter { hart, site })?;
    }
    for hart in 1..harts {
        list.push(Entry::Yield { hart, site })?;
    }
    list.push(Entry::Unregister { hart: 0, site })?;
    Ok(())
}

// The entries of so many sites one after another, with so many harts.
fn longest(alloc: Global, harts: u8, sites: u16) -> Result<Vec<Entry>, AllocError> {
    let mut list = Vec::new(alloc);
    for site in 0..sites {
        add_site(&mut list, harts, site + 1)?;
    }
    Ok(list)
}

#[test]
fn the_longest_journal_of_four_harts_is_legal(rt: HostRuntime) -> Result<(), Fail> {
    let alloc = rt.alloc();
    let list = longest(alloc, 4, 4095)?;
    let plan = Plan::new(alloc, 4, &[0; 4095])?;
    assert_eq!(rt; list.len(), 45_045);
    let output = write_entries(alloc, &plan, &list)?;
    let line = reported(alloc, 4, "for k in 0..4095 { par { { } } }", &output)?;
    assert_eq!(rt; line.as_slice(), b"legal 45045\n".as_slice());
    Ok(())
}

#[test]
fn the_longest_journal_of_sixteen_harts_is_legal(rt: HostRuntime) -> Result<(), Fail> {
    let alloc = rt.alloc();
    let list = longest(alloc, 16, 1394)?;
    let plan = Plan::new(alloc, 16, &[0; 1394])?;
    assert_eq!(rt; list.len(), 65_518);
    let output = write_entries(alloc, &plan, &list)?;
    let line = reported(alloc, 16, "for k in 0..1394 { par { { } } }", &output)?;
    assert_eq!(rt; line.as_slice(), b"legal 65518\n".as_slice());
    Ok(())
}

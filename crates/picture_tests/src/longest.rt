//! The longest journal that is legal.
use journal_picture::{Kind, Shape, svg_picture, text_picture};
use std::alloc::{AllocError, Global};
use std::test::Fail;
use transfer_table::{Entry, Plan};

// Adds all entries that one site can have with so many harts.
fn add_site(list: &mut Vec<Entry>, harts: u8, site: u16) -> Result<(), AllocError> {
    list.push(Entry::Register { hart: 0, site })?;
    for _ in 1..harts {
        list.push(Entry::Request {
            hart: 0,
            site,
            count: 1,
        })?;
    }
    for hart in 1..harts {
        list.push(Entry::Enter { hart, site })?;
    }
    for hart in 1..harts {
        list.push(Entry::Yield { hart, site })?;
    }
    list.push(Entry::Unregister { hart: 0, site })?;
    Ok(())
}

// The entries of so many sites one after another, with so many harts.
fn longest(alloc: Global, harts: u8, sites: u16) -> Result<Vec<Entry>, AllocError> {
    let mut list = Vec::new(alloc);
    for site in 0..sites {
        add_site(&mut list, harts, site + 1)?;
    }
    Ok(list)
}

// Each of so many sites is a pool of the first line.
fn shapes(alloc: Global, sites: u16) -> Result<Vec<Shape>, AllocError> {
    vec![in alloc; Shape {
        kind: Kind::POOL,
        phased: false,
        line: 1
    }; sites as usize]
}

// Each of so many sites is meant to be entered.
fn all(alloc: Global, sites: u16) -> Result<Vec<bool>, AllocError> {
    vec![in alloc; true; sites as usize]
}

// How many lines of the text are a bar or a missed wish of the strip: each begins with `<rect x='`, as five of the legend do.
fn rectangles(text: &[u8]) -> usize {
    let mut count = 0usize;
    for line in text.split(|byte| *byte == b'\n') {
        if line.starts_with(b"<rect x='") {
            count = count.saturating_add(1);
        }
    }
    count.saturating_sub(5)
}

#[test]
fn the_longest_journal_of_four_harts_is_drawn_in_32_rows(rt: HostRuntime) -> Result<(), Fail> {
    let alloc = rt.alloc();
    let plan = Plan::new(alloc, 4, &[0; 4095])?;
    let list = longest(alloc, 4, 4095)?;
    assert_eq!(rt; list.len(), 45_045);
    let all = all(alloc, 4095)?;
    assert_eq!(rt; all.len(), plan.sites() as usize);
    let text = svg_picture(
        alloc,
        &plan,
        &all,
        &shapes(alloc, 4095)?,
        &list,
        b"legal 45045\n",
    )?;
    let fits = text.len() == 1_271_915 && rectangles(&text) == 6_522;
    assert!(rt; fits);
    Ok(())
}

#[test]
fn the_longest_journal_of_sixteen_harts_is_drawn_in_32_rows(rt: HostRuntime) -> Result<(), Fail> {
    let alloc = rt.alloc();
    let plan = Plan::new(alloc, 16, &[0; 1394])?;
    let list = longest(alloc, 16, 1394)?;
    assert_eq!(rt; list.len(), 65_518);
    let all = all(alloc, 1394)?;
    assert_eq!(rt; all.len(), plan.sites() as usize);
    let text = svg_picture(
        alloc,
        &plan,
        &all,
        &shapes(alloc, 1394)?,
        &list,
        b"legal 65518\n",
    )?;
    let fits = text.len() == 1_562_949 && rectangles(&text) == 7_616;
    assert!(rt; fits);
    Ok(())
}

#[test]
fn the_longest_journal_as_text(rt: HostRuntime) -> Result<(), Fail> {
    let alloc = rt.alloc();
    let plan = Plan::new(alloc, 4, &[0; 4095])?;
    let list = longest(alloc, 4, 4095)?;
    assert_eq!(rt; list.len(), 45_045);
    let shapes = shapes(alloc, 4095)?;
    assert_eq!(rt; shapes.len(), plan.sites() as usize);
    let all = all(alloc, 4095)?;
    assert_eq!(rt; all.len(), plan.sites() as usize);
    let text = text_picture(alloc, &plan, &all, &shapes, &list, b"legal 45045\n")?;
    assert_eq!(rt; text.len(), 3_281_012);
    Ok(())
}

//! The words of each fault.
use journal_picture::{Kind, Shape, text_picture};
use std::test::Fail;
use transfer_table::{Entry, Plan};

// A list of a plan of three harts with two sites, the second in the first, and how the picture ends.
struct Case {
    list: &'static [Entry],
    ending: &'static [u8],
}

const NO_SUCH_HART: &[Entry] = &[Entry::Register { hart: 3, site: 1 }];

const NO_SUCH_SITE: &[Entry] = &[Entry::Register { hart: 0, site: 3 }];

const NOT_OWNER: &[Entry] = &[Entry::Register { hart: 1, site: 2 }];

const NOT_NEW: &[Entry] = &[
    Entry::Register { hart: 0, site: 1 },
    Entry::Skip { hart: 0, site: 2 },
    Entry::Unregister { hart: 0, site: 1 },
    Entry::Register { hart: 1, site: 1 },
];

const NOT_LIVE: &[Entry] = &[Entry::Enter { hart: 1, site: 1 }];

const NOT_HOME: &[Entry] = &[
    Entry::Register { hart: 0, site: 1 },
    Entry::Request {
        hart: 0,
        site: 1,
        count: 1,
    },
    Entry::Enter { hart: 1, site: 1 },
    Entry::Unregister { hart: 1, site: 1 },
];

const NO_WISH: &[Entry] = &[
    Entry::Register { hart: 0, site: 1 },
    Entry::Enter { hart: 1, site: 1 },
];

const TOO_MANY: &[Entry] = &[
    Entry::Register { hart: 0, site: 1 },
    Entry::Request {
        hart: 0,
        site: 1,
        count: 1,
    },
    Entry::Request {
        hart: 0,
        site: 1,
        count: 2,
    },
];

const IS_HOME: &[Entry] = &[
    Entry::Register { hart: 0, site: 1 },
    Entry::Yield { hart: 0, site: 1 },
];

const HART_INSIDE: &[Entry] = &[
    Entry::Register { hart: 0, site: 1 },
    Entry::Request {
        hart: 0,
        site: 1,
        count: 1,
    },
    Entry::Enter { hart: 1, site: 1 },
    Entry::Unregister { hart: 0, site: 1 },
];

const CHILD_LEFT: &[Entry] = &[
    Entry::Register { hart: 0, site: 1 },
    Entry::Unregister { hart: 0, site: 1 },
];

const NO_COUNT: &[Entry] = &[
    Entry::Register { hart: 0, site: 1 },
    Entry::Request {
        hart: 0,
        site: 1,
        count: 0,
    },
];

const UNFINISHED: &[Entry] = &[Entry::Register { hart: 0, site: 1 }];

const REGISTERED: &[Entry] = &[
    Entry::Register { hart: 0, site: 1 },
    Entry::Skip { hart: 0, site: 2 },
    Entry::Unregister { hart: 0, site: 1 },
];

const SKIPPED: &[Entry] = &[Entry::Skip { hart: 1, site: 1 }];

const CASES: [Case; 14] = [
    Case {
        list: NO_SUCH_HART,
        ending: b"\nentry 0: h3 register s1: no such hart\nverdict\n",
    },
    Case {
        list: NO_SUCH_SITE,
        ending: b"\nentry 0: h0 register s3: no such site\nverdict\n",
    },
    Case {
        list: NOT_OWNER,
        ending: b"\nentry 0: h1 register s2: the hart is in s0, not in s1\nverdict\n",
    },
    Case {
        list: NOT_NEW,
        ending: b"\nentry 3: h1 register s1: the site isn't new\nverdict\n",
    },
    Case {
        list: NOT_LIVE,
        ending: b"\nentry 0: h1 enter s1: the site isn't live\nverdict\n",
    },
    Case {
        list: NOT_HOME,
        ending: b"\nentry 3: h1 unregister s1: the home is h0\nverdict\n",
    },
    Case {
        list: NO_WISH,
        ending: b"\nentry 1: h1 enter s1: no wish\nverdict\n",
    },
    Case {
        list: TOO_MANY,
        ending: b"\nentry 2: h0 request s1: requested 1 before, at most 2 in all\nverdict\n",
    },
    Case {
        list: IS_HOME,
        ending: b"\nentry 1: h0 yield s1: the hart is the home\nverdict\n",
    },
    Case {
        list: HART_INSIDE,
        ending: b"\nentry 3: h0 unregister s1: h1 is inside\nverdict\n",
    },
    Case {
        list: CHILD_LEFT,
        ending: b"\nentry 1: h0 unregister s1: the child s2 isn't gone\nverdict\n",
    },
    Case {
        list: NO_COUNT,
        ending: b"\nentry 1: h0 request s1: the count is 0\nverdict\n",
    },
    Case {
        list: UNFINISHED,
        ending: b"\nat the end: s1 isn't gone\nverdict\n",
    },
    Case {
        list: SKIPPED,
        ending: b"\nat the end: s1 was skipped, but the program enters it\nverdict\n",
    },
];

const SHAPES: [Shape; 2] = [
    Shape {
        kind: Kind::POOL,
        phased: false,
        line: 3,
    },
    Shape {
        kind: Kind::TEAM,
        phased: true,
        line: 4,
    },
];

#[test]
fn each_fault_has_its_words(rt: HostRuntime) -> Result<(), Fail> {
    let alloc = rt.alloc();
    let plan = Plan::new(alloc, 3, &[0, 1])?;
    for case in &CASES {
        let text = text_picture(
            alloc,
            &plan,
            &[true, true],
            &SHAPES,
            case.list,
            b"verdict\n",
        )?;
        let same = text.as_slice().ends_with(case.ending);
        assert!(rt; same);
    }
    Ok(())
}

#[test]
fn a_site_that_the_program_skips_has_its_words(rt: HostRuntime) -> Result<(), Fail> {
    let alloc = rt.alloc();
    let plan = Plan::new(alloc, 3, &[0, 1])?;
    let text = text_picture(
        alloc,
        &plan,
        &[false, false],
        &SHAPES,
        REGISTERED,
        b"verdict\n",
    )?;
    let same = text.as_slice().ends_with(
        b"\nat the end: s1 was registered, but the program skips it\nverdict\n",
    );
    assert!(rt; same);
    Ok(())
}

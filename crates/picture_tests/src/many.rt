//! Pictures of runs of many harts, and of a verdict with bytes that XML doesn't have.
use journal_picture::{Kind, Shape, svg_picture, text_picture};
use std::test::Fail;
use transfer_table::{Entry, Plan};

const POOL: [Shape; 1] = [Shape {
    kind: Kind::POOL,
    phased: false,
    line: 3,
}];

// Hart 10 is lent to the site and comes back.
const LENT: [Entry; 5] = [
    Entry::Register { hart: 0, site: 1 },
    Entry::Request {
        hart: 0,
        site: 1,
        count: 1,
    },
    Entry::Enter { hart: 10, site: 1 },
    Entry::Yield { hart: 10, site: 1 },
    Entry::Unregister { hart: 0, site: 1 },
];

const LENT_TEXT: &[u8] = b"    entry     0     1     2     3     4
            reg   req enter yield unreg
             h0  h0+1   h10   h10    h0
             s1    s1    s1    s1    s1
h0   base    s1    s1    s1    s1  base
h1   base  base  base  base  base  base
h2   base  base  base  base  base  base
h3   base  base  base  base  base  base
h4   base  base  base  base  base  base
h5   base  base  base  base  base  base
h6   base  base  base  base  base  base
h7   base  base  base  base  base  base
h8   base  base  base  base  base  base
h9   base  base  base  base  base  base
h10  base  base  base    s1  base  base
h11  base  base  base  base  base  base
h12  base  base  base  base  base  base
h13  base  base  base  base  base  base
h14  base  base  base  base  base  base
h15  base  base  base  base  base  base
unm     0     0     1     0     0     0
idl    15    15   !15    14    15    15

   req   met unmet guest  made  base
     1     1     0     1     3    s1 pool, line 3, home h0

  made stays sites  hart
     3     3     1  h0
     0     1     0  h1
     0     1     0  h2
     0     1     0  h3
     0     1     0  h4
     0     1     0  h5
     0     1     0  h6
     0     1     0  h7
     0     1     0  h8
     0     1     0  h9
     2     3     1  h10
     0     1     0  h11
     0     1     0  h12
     0     1     0  h13
     0     1     0  h14
     0     1     0  h15

reg registers a site, req requests harts, unreg unregisters the site
unm unmet wishes, idl idle harts, ! a child of the base has an unmet wish while a hart is idle
of sites: req requested harts, met and unmet wishes, guest most guests at once, made entries inside
of harts: made entries, stays with those in the base, sites visited, each once
legal 5
";

#[test]
fn names_of_harts_are_equally_wide(rt: HostRuntime) -> Result<(), Fail> {
    let alloc = rt.alloc();
    let plan = Plan::new(alloc, 16, &[0])?;
    let text = text_picture(alloc, &plan, &[true], &POOL, &LENT, b"legal 5\n")?;
    let same = text.as_slice() == LENT_TEXT;
    assert!(rt; same);
    Ok(())
}

#[test]
fn the_verdict_is_escaped_in_svg(rt: HostRuntime) -> Result<(), Fail> {
    let alloc = rt.alloc();
    let plan = Plan::new(alloc, 2, &[0])?;
    let verdict = b"a < b & c > d\t\xff\n";
    let text = svg_picture(alloc, &plan, &[true], &POOL, &[], verdict)?;
    let same = text
        .as_slice()
        .ends_with(b"'start'>a &lt; b &amp; c > d??\n</text>\n</svg>\n");
    assert!(rt; same);
    Ok(())
}

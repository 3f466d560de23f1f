//! Names of schedulers' kinds.
use journal_picture::{Kind, Shape, svg_picture, text_picture};
use std::test::Fail;
use transfer_table::{Entry, Plan};

const ONE: [Entry; 2] = [
    Entry::Register { hart: 0, site: 1 },
    Entry::Unregister { hart: 0, site: 1 },
];

// The longest name that a kind may have.
const LONGEST: &str = "Stealing_loops1";

// No names: too long, with a blank, with markup, with a letter outside ASCII.
const NONE: [&str; 4] = ["Stealing_loops_1", "a pool", "a<b", "pöol"];

#[test]
fn a_kind_is_a_short_name_of_letters(rt: HostRuntime) -> Result<(), Fail> {
    for name in NONE {
        assert!(rt; Kind::named(name).is_none());
    }
    assert!(rt; Kind::named("pool") == Some(Kind::POOL));
    assert!(rt; Kind::named("team") == Some(Kind::TEAM));
    assert!(rt; Kind::named("pipe") == Some(Kind::PIPE));
    assert!(rt; Kind::named(LONGEST).is_some());
    Ok(())
}

// Whether the part is in the text.
fn has(text: &[u8], part: &[u8]) -> bool {
    for i in 0..text.len() {
        if text[i..].starts_with(part) {
            return true;
        }
    }
    false
}

#[test]
fn the_name_of_a_kind_is_drawn(rt: HostRuntime) -> Result<(), Fail> {
    let alloc = rt.alloc();
    let plan = Plan::new(alloc, 1, &[0])?;
    let Some(kind) = Kind::named(LONGEST) else {
        return Err(Fail::new("no kind"));
    };
    let shapes = [Shape {
        kind,
        phased: true,
        line: 7,
    }];
    let text = text_picture(alloc, &plan, &[true], &shapes, &ONE, b"legal 2\n")?;
    assert!(rt; has(&text, b"    s1 Stealing_loops1, line 7, home h0\n"));
    let svg = svg_picture(alloc, &plan, &[true], &shapes, &ONE, b"legal 2\n")?;
    let title =
        b"stroke-dasharray='4 2' stroke='#2c5d8f'><title>h0 in s1, Stealing_loops1, line 7, from entry 0 to entry 1</title>";
    assert!(rt; has(&svg, title));
    Ok(())
}

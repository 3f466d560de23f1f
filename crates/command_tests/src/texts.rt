//! The text of small journals.
ghost use Rattle.std.specs.Prelude.{◌<◌, length};

use journal_text::{TextFault, read_entries, write_entries};
use std::alloc::Global;
use std::test::Fail;
use transfer_table::{Entry, Plan};

const LIST: [Entry; 6] = [
    Entry::Register { hart: 0, site: 2 },
    Entry::Request {
        hart: 0,
        site: 1,
        count: 1,
    },
    Entry::Enter { hart: 1, site: 1 },
    Entry::Yield { hart: 1, site: 1 },
    Entry::Unregister { hart: 0, site: 1 },
    Entry::Skip { hart: 1, site: 2 },
];

const TEXT: &[u8] =
    b"transfers 6\n0 h0 register s2 under s1\n1 h0 request s1 1\n2 h1 enter s1\n3 h1 yield s1\n4 h0 unregister s1\n5 h1 skip s2\n";

// A plan with two sites, the second inside the first.
fn plan(alloc: Global) -> Result<Plan, Fail> {
    Ok(Plan::new(alloc, 2, &[0, 1])?)
}

// Whether the list is written as the text.
fn is_written(alloc: Global) -> Result<bool, Fail> {
    let text = write_entries(alloc, &plan(alloc)?, &LIST)?;
    Ok(text.as_slice() == TEXT)
}

// Whether the text is read as the list.
fn is_read(alloc: Global) -> Result<bool, Fail> {
    match read_entries(alloc, &plan(alloc)?, TEXT) {
        Ok(list) => Ok(list.as_slice() == LIST.as_slice()),
        Err(_) => Ok(false),
    }
}

#[test]
fn each_kind_has_its_line(rt: HostRuntime) -> Result<(), Fail> {
    assert!(rt; is_written(rt.alloc())?);
    assert!(rt; is_read(rt.alloc())?);
    Ok(())
}

const FIRST: Option<TextFault> = Some(TextFault::BadLine { line: 1 });

const SECOND: Option<TextFault> = Some(TextFault::BadLine { line: 2 });

const NUMBER: Option<TextFault> = Some(TextFault::BadNumber { line: 2 });

// Texts, and their fault.
const FAULTS: &[(&[u8], Option<TextFault>)] = &[
    (b"", FIRST),
    (b"transfers 0", FIRST),
    (b"transfers 1 \n0 h0 enter s1\n", FIRST),
    (b"transfers 1\n0 h0 register s1\n", SECOND),
    (b"transfers 1\n0  h0 enter s1\n", SECOND),
    (b"transfers 1\n7 h0 enter s1", SECOND),
    (b"transfers \n", Some(TextFault::BadNumber { line: 1 })),
    (b"transfers 1\n00 h0 register s1 under s0\n", NUMBER),
    (b"transfers 1\n1 h0 register s1 under s0\n", NUMBER),
    (b"transfers 1\n0 h0 register s2 under s0\n", NUMBER),
    (b"transfers 1\n0 h enter s1\n", NUMBER),
    (b"transfers 1\n0 h0 request s1 256\n", NUMBER),
    (b"transfers 1\n0 h0 skip s1\n", None),
    (b"transfers 1\n0 h0 skip\n", SECOND),
    (b"transfers 1\n0 h0 skip 1\n", SECOND),
    (b"transfers 1\n0 h0 skips s1\n", SECOND),
    (b"transfers 1\n0 h0 skip s1 1\n", SECOND),
    (b"transfers 1\n0 h0 skip s1 under s0\n", SECOND),
    (b"transfers 1\n0 h0 skip s\n", NUMBER),
    (b"transfers 1\n0 h0 skip s01\n", NUMBER),
    (b"transfers 1\n1 h0 skip s1\n", NUMBER),
    (
        b"transfers 2\n0 h0 enter s1\n",
        Some(TextFault::WrongCount { said: 2, found: 1 }),
    ),
    (b"transfers 0\n", None),
];

// Whether a text has this fault.
fn has(alloc: Global, text: &[u8], fault: &Option<TextFault>) -> Result<bool, Fail> {
    if text.len() > 100 {
        return Err(Fail::new("a long text"));
    }
    let found = match read_entries(alloc, &plan(alloc)?, text) {
        Ok(_) => None,
        Err(fault) => Some(fault),
    };
    Ok(found == *fault)
}

#[test]
fn faults_of_texts_are_reported(rt: HostRuntime) -> Result<(), Fail> {
    for (at, (text, fault)) in FAULTS.iter().enumerate() {
        assert!(rt; has(rt.alloc(), text, fault)?, "at {at}");
    }
    Ok(())
}

//! Lists of words that are forms, and others.
use command_words::{Command, command_of};
use std::alloc::Global;
use std::test::Fail;

// The words, with a bar between two of them, and their command.
const FORMS: &[(&str, Option<Command>)] = &[
    ("run|--harts|1", Some(Command::Run(1))),
    ("run|--harts=2", Some(Command::Run(2))),
    ("run|--harts|016", Some(Command::Run(16))),
    (
        "audit|--harts=00000000000000000003",
        Some(Command::Audit(3)),
    ),
    ("run|--harts|0", None),
    ("run|--harts|17", None),
    ("run|--harts|000000000000000000003", None),
    ("tally|--harts|1", Some(Command::Tally(1))),
    ("tally|--harts=16", Some(Command::Tally(16))),
    ("pipe|--harts|4", Some(Command::Pipe(4))),
    ("pipe|--harts=17", None),
    ("tally|--harts|0", None),
    ("tally|--harts=17", None),
    ("tally", None),
    ("tally|--harts", None),
    ("tally|--harts|2|--harts=2", None),
    ("tally|--harts|1|--seed|1", None),
    ("run", None),
    ("run|--harts=", None),
    ("run|--harts|-1", None),
    ("run|--|--harts|1", None),
    ("run|--hart|1", None),
    ("run|--harts|1|--harts|1", None),
    ("solo|--harts|1", None),
    ("solo", Some(Command::Solo)),
    ("", None),
    ("run|--help", None),
    ("help|run", None),
    ("--version", None),
    (
        "make|--seed|7|--size|16|--harts|4",
        Some(Command::Make {
            seed: 7,
            size: 16,
            harts: 4,
        }),
    ),
    (
        "make|--harts=4|--size|16|--seed=7",
        Some(Command::Make {
            seed: 7,
            size: 16,
            harts: 4,
        }),
    ),
    ("make|--seed|7|--size|41|--harts|4", None),
    ("make|--seed|18446744073709551616|--size|1|--harts|1", None),
    (
        "make|--size=1|--seed=18446744073709551615|--harts=1",
        Some(Command::Make {
            seed: u64::MAX,
            size: 1,
            harts: 1,
        }),
    ),
];

// Whether the words have this command.
fn has(alloc: Global, text: &str, command: &Option<Command>) -> Result<bool, Fail> {
    let mut words = Vec::new(alloc);
    for word in text.split('|') {
        words.push(String::from_str(alloc, word)?)?;
    }
    Ok(command_of(alloc, words.as_slice())? == *command)
}

#[test]
fn lists_of_words_are_forms_or_none(rt: HostRuntime) -> Result<(), Fail> {
    for (text, command) in FORMS {
        assert!(rt; has(rt.alloc(), text, command)?, "{text}");
    }
    Ok(())
}

#[test]
fn no_word_is_no_form(rt: HostRuntime) -> Result<(), Fail> {
    assert!(rt; command_of(rt.alloc(), &[])?.is_none());
    Ok(())
}

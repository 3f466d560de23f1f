//! The lines of entries.
ghost use Rattle.std.specs.Prelude.{◌≡◌, [], ◌∷◌, map};
ghost use Rattle.std.specs.Option.{option_map};
ghost use Rattle.journal_text.specs.Reading.{is_word, is_lettered, deed_of, row_of, entry_by, entry_in};
ghost use Rattle.journal_text.specs.Seen.{deed_seen, row_seen};

use crate::number::{number_up_to, spells};
use transfer_table::{Entry, Plan};

// The greatest number that is read as a hart's.
const MOST_HART: u32 = 255;

// The greatest number that is read as a site's.
const MOST_SITE: u32 = 65_535;

// The greatest number that is read as a count.
const MOST_COUNT: u32 = 255;

/// What the hart does at the site in a line, with the words of further numbers.
#[derive(Clone, Copy)]
pub enum Deed<'t> {
    /// It registers the site, under a parent.
    Registers(&'t [u8]),
    /// It requests harts, as many as this word spells.
    Requests(&'t [u8]),
    Enters,
    Yields,
    Unregisters,
    Skips,
}

/// A line that has the form of an entry's line, with the words of its numbers.
#[derive(Clone, Copy)]
pub struct Row<'t> {
    place: &'t [u8],
    hart: &'t [u8],
    site: &'t [u8],
    deed: Deed<'t>,
}

/// Whether the word is this text.
pub fn is_word(word: &[u8], text: &[u8]) -> bool
    ensures { result ≡ is_word text.now word.now }
{
    word == text
}

// Whether the word begins with this letter.
fn is_lettered(word: &[u8], letter: u8) -> bool
    ensures { result ≡ is_lettered letter word.now }
{
    match word {
        [] => false,
        [first, ..] => *first == letter,
    }
}

// The deed of an action and the words behind the site.
fn deed_of<'t>(action: &[u8], more: &[&'t [u8]]) -> Option<Deed<'t>>
    ensures { option_map deed_seen result ≡ deed_of action.now (map (λ word. word.now) more.now) }
{
    match more {
        [] => bare_deed(action),
        [count] => {
            if is_word(action, b"request") {
                Some(Deed::Requests(count))
            } else {
                None
            }
        }
        [under, around] => registration(action, under, around),
        _ => None,
    }
}

// The deed of a registration, with the words behind the site.
fn registration<'t>(action: &[u8], under: &[u8], around: &'t [u8]) -> Option<Deed<'t>>
    ensures { option_map deed_seen result ≡ deed_of action.now (under.now ∷ around.now ∷ []) }
{
    if !is_word(action, b"register") {
        return None;
    }
    if !is_word(under, b"under") {
        return None;
    }
    if !is_lettered(around, b's') {
        return None;
    }
    Some(Deed::Registers(&around[1..]))
}

// The deed of an action with no word behind the site.
fn bare_deed<'t>(action: &[u8]) -> Option<Deed<'t>>
    ensures { option_map deed_seen result ≡ deed_of action.now [] }
{
    if is_word(action, b"enter") {
        Some(Deed::Enters)
    } else if is_word(action, b"yield") {
        Some(Deed::Yields)
    } else if is_word(action, b"unregister") {
        Some(Deed::Unregisters)
    } else if is_word(action, b"skip") {
        Some(Deed::Skips)
    } else {
        None
    }
}

/// The parts of an entry's line; `None` if the words don't have its form.
pub fn row_of<'t>(words: &[&'t [u8]]) -> Option<Row<'t>>
    ensures { option_map row_seen result ≡ row_of (map (λ word. word.now) words.now) }
{
    let [place, hart, action, site, more @ ..] = words else {
        return None;
    };
    if !is_lettered(hart, b'h') {
        return None;
    }
    if !is_lettered(site, b's') {
        return None;
    }
    let deed = deed_of(action, more)?;
    Some(Row {
        place,
        hart: &hart[1..],
        site: &site[1..],
        deed,
    })
}

/// The entry of a line at this index, if all its numbers are right.
pub fn entry_in(plan: &Plan, place: u32, row: &Row<'_>) -> Option<Entry>
    ensures { result ≡ entry_in plan.now place (row_seen row.now) }
{
    if !spells(row.place, place) {
        return None;
    }
    let hart = number_up_to(row.hart, MOST_HART)?;
    let site = number_up_to(row.site, MOST_SITE)?;
    entry_by(plan, hart as u8, site as u16, row.deed)
}

// The entry of a hart and a site, if the words for further numbers are right.
fn entry_by(plan: &Plan, hart: u8, site: u16, deed: Deed<'_>) -> Option<Entry>
    ensures { result ≡ entry_by plan.now hart site (deed_seen deed.entry) }
{
    match deed {
        Deed::Registers(around) => {
            if spells(around, u32::from(plan.parent(site))) {
                Some(Entry::Register { hart, site })
            } else {
                None
            }
        }
        Deed::Requests(count) => {
            let count = number_up_to(count, MOST_COUNT)? as u8;
            Some(Entry::Request { hart, site, count })
        }
        Deed::Enters => Some(Entry::Enter { hart, site }),
        Deed::Yields => Some(Entry::Yield { hart, site }),
        Deed::Unregisters => Some(Entry::Unregister { hart, site }),
        Deed::Skips => Some(Entry::Skip { hart, site }),
    }
}

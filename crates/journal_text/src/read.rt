//! Reads a journal.
ghost use Rattle.std.specs.Prelude.{◌≡◌, ◌⊎◌, ◌+◌, ◌<◌, ◌≤◌, ◌^◌, ℕ, List, [], ◌∷◌, Ok, Err, IfOk, MatchOption, ◌==◌, position, vec_len, length, map, take};
ghost use Rattle.transfer_table.specs.declared.entry.Entry.{Entry};
ghost use Rattle.journal_text.specs.Journals.{IsJournalOf};
ghost use Rattle.journal_text.specs.Reading.{lines_of, words_of, count_in, entry_of, entries_of, journal_of};
ghost use Rattle.journal_text.specs.Seen.{Reads};

use crate::fault::TextFault;
use crate::number::number_up_to;
use crate::row::{entry_in, is_word, row_of};
use std::alloc::{AllocError, Global};
use transfer_table::{Entries, Entry, MOST_ENTRIES, Plan};

/// Reads the entries of a journal's text, at most 65,535. Each list of entries has one text.
///
/// # Errors
///
/// The first fault of a text that is no journal; `TextFault::Memory` if an allocation fails.
///
/// # Memory
///
/// It allocates the entries, and the words of each line.
pub fn read_entries(alloc: Global, plan: &Plan, text: &[u8]) -> Result<Entries, TextFault>
    requires { length text.now < 2 ^ 32 }
    ensures found { IfOk result (λ list. IsJournalOf plan.now list text.now) }
    ensures only { (list : List Entry) → IsJournalOf plan.now list text.now
        → Reads (λ list. list) (Ok list) result }
    ensures first { Reads (λ list. list) (journal_of plan.now text.now) result }
{
    // The parents of a plan fit its entries.
    let _ = plan.harts();
    read(alloc, plan, text)
}

// The entries of the text, or its first fault.
fn read(alloc: Global, plan: &Plan, text: &[u8]) -> Result<Entries, TextFault>
    requires { length text.now < 2 ^ 32 }
    ensures { Reads (λ list. list) (journal_of plan.now text.now) result }
{
    let Some((first, rest)) = cut_line(text) else {
        return Err(TextFault::BadLine { line: 1 });
    };
    let said = count_in(alloc, first)?;
    let list = entries_of(alloc, plan, rest)?;
    let found = list.len() as u32;
    if found != said {
        return Err(TextFault::WrongCount { said, found });
    }
    Ok(Entries::new(list))
}

/// The text before its first newline and the text behind it; `None` if it has no newline.
pub fn cut_line(text: &[u8]) -> Option<(&[u8], &[u8])>
    ensures { MatchOption result (lines_of text.now ≡ text.now ∷ [])
        (λ cut. (lines_of text.now ≡ cut.0.now ∷ lines_of cut.1.now)
        × (length cut.0.now + length cut.1.now + 1 ≡ length text.now)) }
{
    let end = newline_in(text)?;
    Some((&text[..end], &text[end + 1..]))
}

// The index of the first newline.
fn newline_in(text: &[u8]) -> Option<usize>
    ensures { result ≡ position (λ byte. byte == 10) text.now }
{
    text.iter().position(|byte| *byte == b'\n')
}

// The first seven words of a line. Why: that is one more than the longest entry has, so they decide what is reported.
fn words_of<'t>(alloc: Global, line: &'t [u8]) -> Result<Vec<&'t [u8]>, AllocError>
    ensures { IfOk result (λ words. map (λ word. word.now) words.items
        ≡ take 7 (words_of line.now)) }
{
    line.split(|byte| *byte == b' ').take(7).collect(alloc)
}

// The number of transfers in the first line.
fn count_in(alloc: Global, line: &[u8]) -> Result<u32, TextFault>
    ensures { Reads (λ number. number) (count_in (words_of line.now)) result }
{
    let words = words_of(alloc, line)?;
    count_by(&words)
}

// The number of transfers in these words.
fn count_by(words: &[&[u8]]) -> Result<u32, TextFault>
    ensures { result ≡ count_in (map (λ word. word.now) words.now) }
{
    let [word, number] = words else {
        return Err(TextFault::BadLine { line: 1 });
    };
    if !is_word(word, b"transfers") {
        return Err(TextFault::BadLine { line: 1 });
    }
    match number_up_to(number, MOST_ENTRIES) {
        Some(number) => Ok(number),
        None => Err(TextFault::BadNumber { line: 1 }),
    }
}

// The entries of the lines of a text, from the second line of the journal on. Text behind the last newline is a line without
// one, as in `split`.
fn entries_of(alloc: Global, plan: &Plan, text: &[u8]) -> Result<Vec<Entry>, TextFault>
    requires { length text.now + 1 < 2 ^ 32 }
    ensures first { Reads (λ list. list.items) (entries_of plan.now 0 (lines_of text.now)) result }
    ensures few { IfOk result (λ list. vec_len list ≤ length text.now) }
{
    let mut list = Vec::new(alloc);
    let mut rest = text;
    while let Some((line, after)) = cut_line(rest) {
        let entry = entry_of(alloc, plan, list.len() as u32, line)?;
        list.push(entry)?;
        rest = after;
    }
    if !rest.is_empty() {
        let line = list.len() as u32 + 2;
        return Err(TextFault::BadLine { line });
    }
    Ok(list)
}

// The entry of the line at this index; index 0 is the second line.
fn entry_of(alloc: Global, plan: &Plan, place: u32, line: &[u8]) -> Result<Entry, TextFault>
    requires { place + 2 < 2 ^ 32 }
    ensures { Reads (λ entry. entry) (entry_of plan.now place (words_of line.now)) result }
{
    let words = words_of(alloc, line)?;
    entry_by(plan, place, &words)
}

// The entry of the words of a line at this index.
fn entry_by(plan: &Plan, place: u32, words: &[&[u8]]) -> Result<Entry, TextFault>
    requires { place + 2 < 2 ^ 32 }
    ensures { result ≡ entry_of plan.now place (map (λ word. word.now) words.now) }
{
    let Some(row) = row_of(words) else {
        return Err(TextFault::BadLine { line: place + 2 });
    };
    match entry_in(plan, place, &row) {
        Some(entry) => Ok(entry),
        None => Err(TextFault::BadNumber { line: place + 2 }),
    }
}

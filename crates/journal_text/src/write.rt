//! Writes a journal.
ghost use Rattle.std.specs.Prelude.{◌≡◌, ◌≤◌, ◌<◌, ◌++◌, ◌∷◌, [], IfOk, OnOk, codes, decimal, length, string_bytes};
ghost use Rattle.transfer_table.specs.Plan.{most_entries};
ghost use Rattle.journal_text.specs.JournalText.{journal_text, line_text, start_text, under_text};

use itoa::Buffer;
use std::alloc::{AllocError, Global};
use transfer_table::{Entry, Plan};

/// The journal of these entries, at most 65,535 (no legal list has more), as text.
///
/// # Errors
///
/// `AllocError` if an allocation fails.
///
/// # Memory
///
/// It allocates the text.
pub fn write_entries(alloc: Global, plan: &Plan, list: &[Entry]) -> Result<Vec<u8>, AllocError>
    requires { length list.now ≤ most_entries }
    ensures { IfOk result (λ text. text.items ≡ journal_text plan.now list.now) }
{
    let mut text = String::new(alloc);
    let count = list.len();
    writeln!(text, "transfers {count}")?;
    for (place, entry) in list.iter().enumerate() {
        write_line(&mut text, plan, place, *entry)?;
    }
    Ok(text.into_bytes())
}

// Adds the line of an entry.
fn write_line(text: &mut String, plan: &Plan, place: usize, entry: Entry) -> Result<(), AllocError>
    ensures { OnOk result (string_bytes text.new ≡ string_bytes text.old
        ++ line_text plan.now place entry) }
{
    match entry {
        Entry::Register { hart, site } => {
            write_start(text, place, hart, "register", site)?;
            write_parent(text, plan.parent(site))
        }
        Entry::Request { hart, site, count } => {
            write_start(text, place, hart, "request", site)?;
            write_count(text, count)
        }
        Entry::Enter { hart, site } => {
            write_start(text, place, hart, "enter", site)?;
            text.push_str("\n")
        }
        Entry::Yield { hart, site } => {
            write_start(text, place, hart, "yield", site)?;
            text.push_str("\n")
        }
        Entry::Unregister { hart, site } => {
            write_start(text, place, hart, "unregister", site)?;
            text.push_str("\n")
        }
        Entry::Skip { hart, site } => {
            write_start(text, place, hart, "skip", site)?;
            text.push_str("\n")
        }
    }
}

// Adds the beginning of a line.
fn write_start(
    text: &mut String,
    place: usize,
    hart: u8,
    action: &str,
    site: u16,
) -> Result<(), AllocError>
    ensures { OnOk result (string_bytes text.new ≡ string_bytes text.old
        ++ start_text place hart action.now site) }
{
    push_number(text, place as u64)?;
    text.push_str(" h")?;
    push_number(text, u64::from(hart))?;
    text.push_str(" ")?;
    text.push_str(action)?;
    text.push_str(" s")?;
    push_number(text, u64::from(site))
}

// Adds the end of the line of a registration.
fn write_parent(text: &mut String, parent: u16) -> Result<(), AllocError>
    ensures { OnOk result (string_bytes text.new ≡ string_bytes text.old ++ under_text parent) }
{
    text.push_str(" under s")?;
    push_number(text, u64::from(parent))?;
    text.push_str("\n")
}

// Adds the end of the line of a request.
fn write_count(text: &mut String, count: u8) -> Result<(), AllocError>
    ensures { OnOk result (string_bytes text.new ≡ string_bytes text.old ++ codes " " ++ decimal count ++ 10 ∷ []) }
{
    text.push_str(" ")?;
    push_number(text, u64::from(count))?;
    text.push_str("\n")
}

// Adds a number in decimal.
//
// Why: by `write!` each number goes through a formatter.
fn push_number(text: &mut String, number: u64) -> Result<(), AllocError>
    ensures { OnOk result (string_bytes text.new ≡ string_bytes text.old ++ decimal number) }
{
    text.push_str(Buffer::new().format(number))
}

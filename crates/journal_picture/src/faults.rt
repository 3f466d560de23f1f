//! The first fault of a list in words.
ghost use Rattle.std.specs.Prelude.{◌≡◌, ◌++◌, IfOk, OnOk, string_bytes};
ghost use Rattle.journal_picture.specs.Faults.{elsewhere_words, entry_by, entry_words, fault_line_of, fault_words, reason_words, refused_words, too_many_words, verb, wanted_owner, words_of};

use crate::text::{hart_of, site_of};
use std::alloc::{AllocError, Global};
use transfer_table::{Entry, Fault, NotAdmitted, Plan, Why};

/// The words of the list's first fault and an end of line; nothing if there is no fault.
pub(crate) fn fault_line_of(
    alloc: Global,
    plan: &Plan,
    list: &[Entry],
    fault: Option<Fault>,
) -> Result<String, AllocError>
    ensures { IfOk result (λ line. string_bytes line ≡ fault_line_of plan.now list.now fault) }
{
    let mut line = words_of(alloc, plan, list, fault)?;
    if fault.is_some() {
        line.push_str("\n")?;
    }
    Ok(line)
}

/// The words of the list's first fault; nothing if there is none.
pub(crate) fn words_of(
    alloc: Global,
    plan: &Plan,
    list: &[Entry],
    fault: Option<Fault>,
) -> Result<String, AllocError>
    ensures { IfOk result (λ words. string_bytes words ≡ words_of plan.now list.now fault) }
{
    match fault {
        None => Ok(String::new(alloc)),
        Some(fault) => fault_words(alloc, plan, list, fault.place, fault.why),
    }
}

// The words of a fault at an index.
fn fault_words(
    alloc: Global,
    plan: &Plan,
    list: &[Entry],
    place: u32,
    why: Why,
) -> Result<String, AllocError>
    ensures { IfOk result (λ words. string_bytes words ≡ fault_words plan.now list.now place why) }
{
    match why {
        Why::Refused(refusal) => {
            refused_words(
                alloc,
                plan,
                place,
                list.get(place as usize).copied(),
                refusal,
            )
        }
        Why::Unfinished { site } => format!(in alloc; "at the end: s{site} isn't gone"),
        Why::Unmeant {
            site,
            registered: true,
        } => format!(in alloc; "at the end: s{site} was registered, but the program skips it"),
        Why::Unmeant {
            site,
            registered: false,
        } => format!(in alloc; "at the end: s{site} was skipped, but the program enters it"),
    }
}

// The words of a refused entry, with the reason.
fn refused_words(
    alloc: Global,
    plan: &Plan,
    place: u32,
    entry: Option<Entry>,
    refusal: NotAdmitted,
) -> Result<String, AllocError>
    ensures { IfOk result (λ words. string_bytes words
        ≡ refused_words plan.now place entry refusal) }
{
    let Some(entry) = entry else {
        return Ok(String::new(alloc));
    };
    let mut words = entry_words(alloc, place as usize, entry)?;
    words.push_str(": ")?;
    add_reason(&mut words, plan, entry, refusal)?;
    Ok(words)
}

// Adds why the table refuses an entry.
fn add_reason(
    words: &mut String,
    plan: &Plan,
    entry: Entry,
    refusal: NotAdmitted,
) -> Result<(), AllocError>
    ensures { OnOk result (string_bytes words.new ≡ string_bytes words.old
        ++ reason_words plan.now entry refusal) }
{
    match refusal {
        NotAdmitted::NoSuchHart => words.push_str("no such hart"),
        NotAdmitted::NoSuchSite => words.push_str("no such site"),
        NotAdmitted::NotOwner { owner } => add_elsewhere(words, owner, wanted_owner(plan, entry)),
        NotAdmitted::NotNew => words.push_str("the site isn't new"),
        NotAdmitted::NotLive => words.push_str("the site isn't live"),
        NotAdmitted::NotHome { home } => write!(words, "the home is h{home}"),
        NotAdmitted::NoWish => words.push_str("no wish"),
        NotAdmitted::TooManyWished { asked } => add_too_many(words, asked, plan.harts() - 1),
        NotAdmitted::IsHome => words.push_str("the hart is the home"),
        NotAdmitted::HartInside { hart } => write!(words, "h{hart} is inside"),
        NotAdmitted::ChildLeft { site } => write!(words, "the child s{site} isn't gone"),
        NotAdmitted::NoCount => words.push_str("the count is 0"),
    }
}

// Adds that the hart is in one site and must be in another.
#[tactic(auto, unfolding(crate::specs::Faults::elsewhere_words))]
fn add_elsewhere(words: &mut String, owner: u16, wanted: u16) -> Result<(), AllocError>
    ensures { OnOk result (string_bytes words.new ≡ string_bytes words.old
        ++ elsewhere_words owner wanted) }
{
    write!(words, "the hart is in s{owner}, not in s{wanted}")
}

// Adds how many harts the site requested before, and how many it may request.
fn add_too_many(words: &mut String, asked: u8, most: u8) -> Result<(), AllocError>
    ensures { OnOk result (string_bytes words.new ≡ string_bytes words.old
        ++ too_many_words asked most) }
{
    write!(words, "requested {asked} before, at most {most} in all")
}

// The site in which the hart of an entry must be.
fn wanted_owner(plan: &Plan, entry: Entry) -> u16
    ensures { result ≡ wanted_owner plan.now entry }
{
    match entry {
        Entry::Register { site, .. } | Entry::Enter { site, .. } | Entry::Skip { site, .. } => {
            plan.parent(site)
        }
        Entry::Request { site, .. } | Entry::Yield { site, .. } | Entry::Unregister { site, .. } =>
            site,
    }
}

/// An entry in words.
pub(crate) fn entry_words(alloc: Global, k: usize, entry: Entry) -> Result<String, AllocError>
    ensures { IfOk result (λ words. string_bytes words ≡ entry_words k entry) }
{
    entry_by(alloc, k, hart_of(entry), verb(entry), site_of(entry))
}

// What a hart does at a site, in words.
fn entry_by(alloc: Global, k: usize, hart: u8, does: &str, site: u16) -> Result<String, AllocError>
    ensures { IfOk result (λ words. string_bytes words ≡ entry_by k hart does.now site) }
{
    format!(in alloc; "entry {k}: h{hart} {does} s{site}")
}

// What an entry does.
fn verb(entry: Entry) -> &'static str
    ensures { result.now ≡ verb entry }
{
    match entry {
        Entry::Register { .. } => "register",
        Entry::Request { .. } => "request",
        Entry::Enter { .. } => "enter",
        Entry::Yield { .. } => "yield",
        Entry::Unregister { .. } => "unregister",
        Entry::Skip { .. } => "skip",
    }
}

//! The picture in text.
ghost use Rattle.std.specs.Prelude.{◌≡◌, ◌≤◌, ◌++◌, ◌*◌, IfOk, OnOk, length, take, drop, string_bytes};
ghost use Rattle.transfer_table.specs.Entry.{hart_of, site_of};
ghost use Rattle.transfer_table.specs.Plan.{site_count, most_entries};
ghost use Rattle.journal_picture.specs.Faults.{fault_line_of};
ghost use Rattle.journal_picture.specs.TextPicture.{band_count, band_text, bands_text, deed, deed_lines, doer, entries_line, hart_name, idle_line, idle_words, lanes_text, mark_text, numbers_line, requesting, shown_text, sites_text, strip_lines, text_of, text_picture, unmet_line, word_of};
ghost use Rattle.journal_picture.specs.Texts.{Adds};
ghost use Rattle.journal_picture.specs.Views.{view_of};

use crate::drawing::Drawing;
use crate::drawn::before;
use crate::faults::fault_line_of;
use crate::harts::write_harts_text;
use crate::lanes::{Lane, lanes_of};
use crate::shape::Shape;
use crate::strip::{Figures, strip_of};
use crate::tree::{write_number, write_tree};
use crate::words::{Written, site_name, write_cell, write_name};
use std::alloc::{AllocError, Global};
use transfer_table::{Entry, Fault, Plan, first_fault};

/// The picture of the list in text, up to its first fault, with the tree of the sites. At its end stand the words of the fault, if
/// there is one, and the verdict. The sites have these shapes. The list has at most 65,535 entries. Which sites are meant to be entered is a truth value for each, that of site `s` at
/// index `s - 1`.
///
/// # Errors
///
/// `AllocError` if an allocation fails.
pub fn text_picture(
    alloc: Global,
    plan: &Plan,
    meant: &[bool],
    shapes: &[Shape],
    list: &[Entry],
    verdict: &[u8],
) -> Result<Vec<u8>, AllocError>
    requires few { length list.now ≤ most_entries }
    requires meant { length meant.now ≡ site_count plan.now }
    requires shapes { length shapes.now ≡ site_count plan.now }
    ensures { IfOk result
        (λ text. text.items ≡ text_picture plan.now meant.now shapes.now list.now verdict.now) }
{
    let fault = first_fault(alloc, plan, meant, list)?;
    let ending = ending_of(alloc, plan, list, fault, verdict)?;
    let drawing = Drawing::new(alloc, plan, shapes, before(fault, list))?;
    text_of(&drawing, fault.is_some(), &ending)
}

// The picture, at whose end there is a fault or none, and these lines.
fn text_of(drawing: &Drawing, faulty: bool, ending: &[u8]) -> Result<Vec<u8>, AllocError>
    requires { length drawing.now.shapes.now ≡ site_count drawing.now.board.plan }
    ensures { IfOk result
        (λ text. text.items ≡ text_of (view_of drawing.now) faulty ending.now) }
{
    let mut text = String::new(drawing.alloc);
    write_shown(&mut text, drawing, faulty)?;
    let mut bytes = text.into_bytes();
    bytes.extend_from_slice(ending)?;
    Ok(bytes)
}

// The lines of the fault and of the verdict.
fn ending_of(
    alloc: Global,
    plan: &Plan,
    list: &[Entry],
    fault: Option<Fault>,
    verdict: &[u8],
) -> Result<Vec<u8>, AllocError>
    ensures { IfOk result (λ ending. ending.items
        ≡ fault_line_of plan.now list.now fault ++ verdict.now) }
{
    let mut ending = fault_line_of(alloc, plan, list, fault)?.into_bytes();
    ending.extend_from_slice(verdict)?;
    Ok(ending)
}

// Adds the bands, the tree, the table of harts and the legend.
fn write_shown(text: &mut String, drawing: &Drawing, faulty: bool) -> Written
    requires { length drawing.now.shapes.now ≡ site_count drawing.now.board.plan }
    ensures { OnOk result (Adds text.old (shown_text (view_of drawing.now) faulty) text.new) }
{
    let lanes = lanes_of(drawing.alloc, drawing.plan(), drawing.list)?;
    let strip = strip_of(drawing.alloc, drawing.plan(), drawing.list)?;
    write_bands(text, drawing, &lanes, &strip, faulty)?;
    write_tree(text, drawing)?;
    write_harts_text(text, drawing.alloc, &drawing.travels)?;
    text.push_str(
        "\nreg registers a site, req requests harts, unreg unregisters the site\nunm unmet wishes, idl idle harts, ! a child of the base has an unmet wish while a hart is idle\nof sites: req requested harts, met and unmet wishes, guest most guests at once, made entries inside\nof harts: made entries, stays with those in the base, sites visited, each once\n",
    )
}

// Adds all bands.
fn write_bands(
    text: &mut String,
    drawing: &Drawing,
    lanes: &[Lane],
    strip: &[Figures],
    faulty: bool,
) -> Written
    ensures { OnOk result (Adds text.old (bands_text faulty drawing.now.list.now lanes.now
        strip.now 0 (band_count (length drawing.now.list.now))) text.new) }
{
    let count = band_count(drawing.list.len());
    for band in 0..count {
        write_band(text, drawing, lanes, strip, faulty, 14 * band)?;
    }
    Ok(())
}

// How many bands so many entries have.
fn band_count(entries: usize) -> usize
    requires { entries ≤ most_entries }
    ensures same { result ≡ band_count entries }
    ensures few { result ≤ most_entries }
{
    if entries == 0 { 1 } else { (entries + 13) / 14 }
}

// Adds the band of the entry at a place and those that follow.
fn write_band(
    text: &mut String,
    drawing: &Drawing,
    lanes: &[Lane],
    strip: &[Figures],
    faulty: bool,
    at: usize,
) -> Written
    requires few { at ≤ 1000000 }
    ensures { OnOk result (Adds text.old
        (band_text faulty drawing.now.list.now lanes.now strip.now at) text.new) }
{
    let shown = window(drawing.list, at, 14);
    let marked = faulty && drawing.list.len() <= at + 14;
    write_numbers_line(text, drawing.alloc, marked, at, shown)?;
    write_deed_lines(text, drawing.alloc, shown)?;
    write_lanes(text, drawing.alloc, at, lanes)?;
    write_strip_lines(text, drawing.alloc, window(strip, at, 15))
}

// Adds the lines of what the entries do, whose they are, and of which site.
fn write_deed_lines(text: &mut String, alloc: Global, shown: &[Entry]) -> Written
    ensures { OnOk result (Adds text.old (deed_lines shown.now) text.new) }
{
    write_entries_line(text, alloc, Line::Deeds, shown)?;
    write_entries_line(text, alloc, Line::Doers, shown)?;
    write_entries_line(text, alloc, Line::Sites, shown)
}

// What a line of a band has about each entry.
#[derive(Clone, Copy)]
enum Line {
    Deeds,
    Doers,
    Sites,
}

// Adds a line about the entries, with a cell for each.
fn write_entries_line(text: &mut String, alloc: Global, line: Line, shown: &[Entry]) -> Written
    ensures { OnOk result (Adds text.old (entries_line line shown.now) text.new) }
{
    text.push_str("         ")?;
    for entry in shown {
        let word = word_of(alloc, line, *entry)?;
        write_cell(text, word.as_str())?;
    }
    text.push_str("\n")
}

// What an entry does, whose it is, or of which site.
fn word_of(alloc: Global, line: Line, entry: Entry) -> Result<String, AllocError>
    ensures { IfOk result (λ word. string_bytes word ≡ word_of line entry) }
{
    match line {
        Line::Deeds => String::from_str(alloc, deed(entry)),
        Line::Doers => doer(alloc, entry),
        Line::Sites => site_name(alloc, site_of(entry)),
    }
}

// Adds the lines of the strip, and an empty one.
fn write_strip_lines(text: &mut String, alloc: Global, shown: &[Figures]) -> Written
    ensures { OnOk result (Adds text.old (strip_lines shown.now) text.new) }
{
    write_unmet_line(text, alloc, shown)?;
    write_idle_line(text, alloc, shown)
}

// Adds the line of how many wishes are unmet at each place.
fn write_unmet_line(text: &mut String, alloc: Global, shown: &[Figures]) -> Written
    ensures { OnOk result (Adds text.old (unmet_line shown.now) text.new) }
{
    text.push_str("unm")?;
    for figures in shown {
        write_number(text, alloc, figures.unmet)?;
    }
    text.push_str("\n")
}

// Adds the line of how many harts are idle at each place, and an empty one.
fn write_idle_line(text: &mut String, alloc: Global, shown: &[Figures]) -> Written
    ensures { OnOk result (Adds text.old (idle_line shown.now) text.new) }
{
    text.push_str("idl")?;
    for figures in shown {
        let idle = idle_words(alloc, *figures)?;
        write_cell(text, idle.as_str())?;
    }
    text.push_str("\n\n")
}

// How many harts are idle at a place, with a mark where a lender missed a wish.
fn idle_words(alloc: Global, figures: Figures) -> Result<String, AllocError>
    ensures { IfOk result (λ words. string_bytes words ≡ idle_words figures) }
{
    let idle = figures.idle;
    if figures.missed {
        format!(in alloc; "!{idle}")
    } else {
        format!(in alloc; "{idle}")
    }
}

// Adds the line of the entries' numbers, with the mark of a fault or without.
fn write_numbers_line(
    text: &mut String,
    alloc: Global,
    marked: bool,
    at: usize,
    shown: &[Entry],
) -> Written
    requires few { at ≤ 1000000 }
    requires shown { length shown.now ≤ 14 }
    ensures { OnOk result (Adds text.old (numbers_line marked at shown.now) text.new) }
{
    text.push_str("    entry")?;
    for i in 0..shown.len() {
        write_number(text, alloc, (at + i) as u32)?;
    }
    write_mark(text, marked)?;
    text.push_str("\n")
}

// At most so many items, from a place on.
fn window<T>(items: &[T], at: usize, most: usize) -> &[T]
    ensures same { result.now ≡ take most (drop at items.now) }
    ensures few { length result.now ≤ most }
{
    if at >= items.len() {
        return &items[items.len()..];
    }
    let rest = &items[at..];
    if most >= rest.len() {
        rest
    } else {
        &rest[..most]
    }
}

// Adds the mark of a fault, if there is one.
fn write_mark(text: &mut String, marked: bool) -> Written
    ensures { OnOk result (Adds text.old (mark_text marked) text.new) }
{
    if marked {
        write_cell(text, "fault")
    } else {
        Ok(())
    }
}

// The hart of an entry, and how many harts the entry requests.
fn doer(alloc: Global, entry: Entry) -> Result<String, AllocError>
    ensures { IfOk result (λ name. string_bytes name ≡ doer entry) }
{
    match entry {
        Entry::Request { hart, count, .. } => requesting(alloc, hart, count),
        Entry::Register { hart, .. }
        | Entry::Enter { hart, .. }
        | Entry::Yield { hart, .. }
        | Entry::Unregister { hart, .. }
        | Entry::Skip { hart, .. } => format!(in alloc; "h{hart}"),
    }
}

// A hart and how many harts it requests.
fn requesting(alloc: Global, hart: u8, count: u8) -> Result<String, AllocError>
    ensures { IfOk result (λ name. string_bytes name ≡ requesting hart count) }
{
    format!(in alloc; "h{hart}+{count}")
}

/// The hart that makes the entry.
pub(crate) fn hart_of(entry: Entry) -> u8
    ensures { result ≡ hart_of entry }
{
    match entry {
        Entry::Register { hart, .. }
        | Entry::Request { hart, .. }
        | Entry::Enter { hart, .. }
        | Entry::Yield { hart, .. }
        | Entry::Unregister { hart, .. }
        | Entry::Skip { hart, .. } => hart,
    }
}

/// The site that the entry is of.
pub(crate) fn site_of(entry: Entry) -> u16
    ensures { result ≡ site_of entry }
{
    match entry {
        Entry::Register { site, .. }
        | Entry::Request { site, .. }
        | Entry::Enter { site, .. }
        | Entry::Yield { site, .. }
        | Entry::Unregister { site, .. }
        | Entry::Skip { site, .. } => site,
    }
}

/// What the entry does, in a short word.
pub(crate) fn deed(entry: Entry) -> &'static str
    ensures { result.now ≡ deed entry }
{
    match entry {
        Entry::Register { .. } => "reg",
        Entry::Request { .. } => "req",
        Entry::Enter { .. } => "enter",
        Entry::Yield { .. } => "yield",
        Entry::Unregister { .. } => "unreg",
        Entry::Skip { .. } => "skip",
    }
}

// Adds the lines of the harts.
fn write_lanes(text: &mut String, alloc: Global, at: usize, lanes: &[Lane]) -> Written
    ensures { OnOk result (Adds text.old (lanes_text at 0 lanes.now) text.new) }
{
    for (hart, lane) in lanes.iter().enumerate() {
        write_hart(text, alloc, hart)?;
        write_sites(text, alloc, window(lane.sites(), at, 15))?;
        text.push_str("\n")?;
    }
    Ok(())
}

// Adds the name of a hart.
fn write_hart(text: &mut String, alloc: Global, hart: usize) -> Written
    ensures { OnOk result (Adds text.old (hart_name hart) text.new) }
{
    let name = format!(in alloc; "h{hart}")?;
    write_name(text, name.as_str())
}

// Adds the names of sites.
fn write_sites(text: &mut String, alloc: Global, sites: &[u16]) -> Written
    ensures { OnOk result (Adds text.old (sites_text sites.now) text.new) }
{
    for site in sites {
        let name = site_name(alloc, *site)?;
        write_cell(text, name.as_str())?;
    }
    Ok(())
}

//! The marks at the lanes, the strip and the fault.
ghost use Rattle.std.specs.Prelude.{◌≡◌, ◌≤◌, IfOk, OnOk, string_bytes};
ghost use Rattle.transfer_table.specs.Plan.{most_entries};
ghost use Rattle.transfer_table.specs.Table.{first_state};
ghost use Rattle.journal_picture.specs.Strip.{HasWishesWithin};
ghost use Rattle.journal_picture.specs.SvgMarks.{entry_mark, fault_marks, fault_note, fault_svg, fault_word, fault_x, figures_svg, figures_words, line_svg, look_of, mark_text, mark_y, marks_text, numbers_svg, red_svg, strip_svg, titled_svg, unmet_at, unmet_mark};
ghost use Rattle.journal_picture.specs.Texts.{Adds};
ghost use Rattle.journal_picture.specs.Views.{view_of};

use crate::axis::write_guide;
use crate::bars::{write_number, write_rect};
use crate::drawing::Drawing;
use crate::faults::entry_words;
use crate::scale::lane_y;
use crate::strip::{Figures, Wishing, admit_and_follow, figures_of};
use crate::text::hart_of;
use crate::words::Written;
use std::alloc::{AllocError, Global};
use transfer_table::{Board, Entry};

/// Adds the marks of requests, of unmet wishes, and of skips.
pub(crate) fn write_marks(text: &mut String, drawing: &Drawing) -> Written
    ensures { OnOk result (Adds text.old
        (marks_text (view_of drawing.now) 0 drawing.now.list.now) text.new) }
{
    for (k, entry) in drawing.list.iter().enumerate() {
        write_entry_mark(text, drawing, k, *entry)?;
    }
    Ok(())
}

// Adds the mark of an entry, if it has one.
fn write_entry_mark(text: &mut String, drawing: &Drawing, k: usize, entry: Entry) -> Written
    requires { k ≤ most_entries }
    ensures { OnOk result (Adds text.old (entry_mark (view_of drawing.now) k entry) text.new) }
{
    let alloc = drawing.alloc;
    match entry {
        Entry::Request { count, .. } => {
            let words = format!(in alloc; "+{count}")?;
            write_mark(text, drawing, k, entry, words.as_str())
        }
        Entry::Unregister { site, .. } => {
            write_unmet(text, drawing, k, entry, unmet_at(&drawing.board, site))
        }
        Entry::Skip { site, .. } => {
            let words = format!(in alloc; "skip s{site}")?;
            write_mark(text, drawing, k, entry, words.as_str())
        }
        Entry::Register { .. } | Entry::Enter { .. } | Entry::Yield { .. } => Ok(()),
    }
}

// Adds the mark of unmet wishes, if there are any.
fn write_unmet(text: &mut String, drawing: &Drawing, k: usize, entry: Entry, wishes: u8) -> Written
    requires { k ≤ most_entries }
    ensures { OnOk result (Adds text.old
        (unmet_mark (view_of drawing.now) k entry wishes) text.new) }
{
    if wishes == 0 {
        return Ok(());
    }
    let alloc = drawing.alloc;
    let words = format!(in alloc; "{wishes} unmet")?;
    write_mark(text, drawing, k, entry, words.as_str())
}

// The unmet wishes of a site; 0 if the plan has no such site.
fn unmet_at(board: &Board, site: u16) -> u8
    ensures { result ≡ unmet_at board.now.plan board.now.state site }
{
    if site == 0 || site > board.plan().sites() {
        0
    } else {
        board.wishes(site)
    }
}

// Adds the mark of an entry, if its row is shown: these words where there are 40 units for them, else a line.
fn write_mark(text: &mut String, drawing: &Drawing, k: usize, entry: Entry, words: &str) -> Written
    requires { k ≤ most_entries }
    ensures { OnOk result (Adds text.old
        (mark_text (view_of drawing.now) k entry words.now) text.new) }
{
    let row = drawing.row_of(k);
    if !drawing.is_shown(row) {
        return Ok(());
    }
    let title = entry_words(drawing.alloc, k, entry)?;
    let x = drawing.entry_x(k);
    let y = mark_y(drawing.row_y(row), hart_of(entry));
    if drawing.step() < 40 {
        write_line(text, x, y, look_of(entry), title.as_str())
    } else {
        write_titled(text, x, y, words, title.as_str())
    }
}

// The foot of the marks of a lane.
fn mark_y(top: usize, hart: u8) -> usize
    requires { top ≤ 4000000000000 }
    ensures { result ≡ mark_y top hart }
{
    lane_y(top, hart) + 6
}

// Adds a line with a title.
#[tactic(auto, unfolding(crate::specs::SvgMarks::line_svg))]
fn write_line(text: &mut String, x: usize, y: usize, look: &str, title: &str) -> Written
    ensures { OnOk result (Adds text.old (line_svg x y look.now title.now) text.new) }
{
    write!(
        text,
        "<path d='M{x} {y}{look}'><title>{title}</title></path>\n"
    )
}

// Adds words with a title.
#[tactic(auto, unfolding(crate::specs::SvgMarks::titled_svg))]
fn write_titled(text: &mut String, x: usize, y: usize, words: &str, title: &str) -> Written
    ensures { OnOk result (Adds text.old (titled_svg x y words.now title.now) text.new) }
{
    write!(
        text,
        "<text x='{x}' y='{y}'>{words}<title>{title}</title></text>\n"
    )
}

// What a mark looks like where there is no room for words.
fn look_of(entry: Entry) -> &'static str
    ensures { result.now ≡ look_of entry }
{
    match entry {
        Entry::Request { .. } => "v-8' stroke='#000000",
        Entry::Unregister { .. } => "v-4' stroke='#000000' stroke-width='4",
        Entry::Skip { .. } => "l-5 -8' stroke='#b00020",
        Entry::Register { .. } | Entry::Enter { .. } | Entry::Yield { .. } => "",
    }
}

/// Adds the strip.
pub(crate) fn write_strip(text: &mut String, drawing: &Drawing) -> Written
    ensures { OnOk result (Adds text.old (strip_svg (view_of drawing.now)
        (first_state drawing.now.board.plan) 0 drawing.now.list.now) text.new) }
{
    let mut board = Board::new(drawing.alloc, drawing.plan())?;
    let mut wishing = Wishing::none();
    for (k, entry) in drawing.list.iter().enumerate() {
        write_figures(text, drawing, &board, wishing, k)?;
        wishing = admit_and_follow(&mut board, wishing, *entry);
    }
    write_figures(text, drawing, &board, wishing, drawing.list.len())
}

// Adds the figures of a place, if its row is shown.
fn write_figures(
    text: &mut String,
    drawing: &Drawing,
    board: &Board,
    wishing: Wishing,
    k: usize,
) -> Written
    requires low { k ≤ most_entries }
    requires plan { board.now.plan ≡ drawing.now.board.plan }
    requires within { HasWishesWithin board.now.plan board.now.state wishing.low wishing.high }
    ensures { OnOk result (Adds text.old
        (figures_svg (view_of drawing.now) board.now.state k) text.new) }
{
    if !drawing.is_shown(drawing.row_of(k)) {
        return Ok(());
    }
    let figures = figures_of(board, wishing);
    write_red(text, drawing, k, figures)?;
    write_numbers(text, drawing, k, figures)
}

// Adds a red rectangle where a lender missed a wish.
fn write_red(text: &mut String, drawing: &Drawing, k: usize, figures: Figures) -> Written
    ensures { OnOk result (Adds text.old (red_svg (view_of drawing.now) k figures) text.new) }
{
    if !figures.missed {
        return Ok(());
    }
    let title = figures_words(drawing.alloc, k, figures)?;
    let (x, y) = (drawing.place_x(k), drawing.strip_y(drawing.row_of(k)));
    let red = "#f6b3b9' stroke='#b00020";
    write_rect(text, x, y, drawing.step(), red, title.as_str())
}

// The figures of a place in words.
fn figures_words(alloc: Global, k: usize, figures: Figures) -> Result<String, AllocError>
    ensures { IfOk result (λ words. string_bytes words ≡ figures_words k figures) }
{
    let unmet = figures.unmet;
    let idle = figures.idle;
    format!(in alloc; "before entry {k}: unmet {unmet}, idle {idle}")
}

// Adds both numbers, where there is room.
fn write_numbers(text: &mut String, drawing: &Drawing, k: usize, figures: Figures) -> Written
    ensures { OnOk result (Adds text.old (numbers_svg (view_of drawing.now) k figures) text.new) }
{
    if drawing.step() < 24 {
        return Ok(());
    }
    let x = drawing.place_x(k) + 12;
    let y = drawing.strip_y(drawing.row_of(k));
    write_number(text, x, y + 11, figures.unmet as usize)?;
    write_number(text, x, y + 25, figures.idle as usize)
}

/// Adds the mark of the fault with its words, if there is one.
pub(crate) fn write_fault(
    text: &mut String,
    drawing: &Drawing,
    faulty: bool,
    words: &str,
) -> Written
    ensures { OnOk result (Adds text.old
        (fault_svg (view_of drawing.now) faulty words.now) text.new) }
{
    if !faulty {
        return Ok(());
    }
    let end = drawing.list.len();
    let top = drawing.row_y(drawing.row_of(end));
    write_fault_marks(text, drawing, drawing.entry_x(end), top, words)
}

// Adds the line, the word and the words of a fault, whose row begins at this height.
fn write_fault_marks(
    text: &mut String,
    drawing: &Drawing,
    x: usize,
    top: usize,
    words: &str,
) -> Written
    requires { top ≤ 4000000000000 }
    ensures { OnOk result (Adds text.old
        (fault_marks (view_of drawing.now) x top words.now) text.new) }
{
    let stroke = "#b00020' stroke-width='3' stroke-dasharray='6 3";
    write_guide(text, drawing, x, top, stroke)?;
    write_fault_word(text, x, top + 24, words)?;
    write_fault_note(text, fault_x(drawing.rows()), words)
}

// Adds the word of a fault, with the words of the fault as its title.
#[tactic(auto, unfolding(crate::specs::SvgMarks::fault_word))]
fn write_fault_word(text: &mut String, x: usize, y: usize, words: &str) -> Written
    ensures { OnOk result (Adds text.old (fault_word x y words.now) text.new) }
{
    write!(
        text,
        "<text x='{x}' y='{y}' fill='#b00020' font-weight='bold'>fault<title>{words}</title></text>\n"
    )
}

// The left end of the fault's words.
fn fault_x(rows: usize) -> usize
    ensures { result ≡ fault_x rows }
{
    if rows <= 32 { 260 } else { 560 }
}

// Adds the words of a fault below the verdict.
#[tactic(auto, unfolding(crate::specs::SvgMarks::fault_note))]
fn write_fault_note(text: &mut String, x: usize, words: &str) -> Written
    ensures { OnOk result (Adds text.old (fault_note x words.now) text.new) }
{
    write!(
        text,
        "<text x='{x}' y='72' fill='#b00020' font-weight='bold' text-anchor='start'>{words}</text>\n"
    )
}

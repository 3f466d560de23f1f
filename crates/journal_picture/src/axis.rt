//! The names of the lanes, and the axis with the entries' numbers and what they do.
ghost use Rattle.std.specs.Prelude.{◌≡◌, ◌≤◌, IfOk, OnOk, string_bytes};
ghost use Rattle.transfer_table.specs.Plan.{most_entries};
ghost use Rattle.journal_picture.specs.Scale.{rows_of};
ghost use Rattle.journal_picture.specs.SvgMarks.{deed_text, guide_text, hart_at, harts_svg, row_names, rows_svg, strip_names, tick_text, ticks_text, who_text};
ghost use Rattle.journal_picture.specs.Texts.{Adds};
ghost use Rattle.journal_picture.specs.Views.{view_of};

use crate::bars::{write_at, write_number};
use crate::drawing::Drawing;
use crate::scale::lane_y;
use crate::text::{deed, hart_of, site_of};
use crate::words::Written;
use std::alloc::{AllocError, Global};
use transfer_table::Entry;

/// Adds the names at the left of all rows.
pub(crate) fn write_rows(text: &mut String, drawing: &Drawing) -> Written
    ensures { OnOk result (Adds text.old
        (rows_svg (view_of drawing.now) 0 (rows_of (view_of drawing.now))) text.new) }
{
    let count = drawing.rows();
    for row in 0..count {
        write_row_names(text, drawing, row)?;
    }
    Ok(())
}

// Adds the names of a row's lanes and of its strip's numbers, if the row is shown.
fn write_row_names(text: &mut String, drawing: &Drawing, row: usize) -> Written
    requires { row ≤ 65536 }
    ensures { OnOk result (Adds text.old (row_names (view_of drawing.now) row) text.new) }
{
    if !drawing.is_shown(row) {
        return Ok(());
    }
    write_harts(text, drawing, drawing.row_y(row))?;
    write_strip_names(text, drawing.strip_y(row))
}

// Adds the names of the lanes.
fn write_harts(text: &mut String, drawing: &Drawing, top: usize) -> Written
    requires { top ≤ 4000000000000 }
    ensures { OnOk result (Adds text.old
        (harts_svg top 0 drawing.now.board.plan.harts) text.new) }
{
    for hart in 0..drawing.plan().harts() {
        write_hart_at(text, lane_y(top, hart) + 34, hart)?;
    }
    Ok(())
}

// Adds the name of a hart at a height.
#[tactic(auto, unfolding(crate::specs::SvgMarks::hart_at))]
fn write_hart_at(text: &mut String, y: usize, hart: u8) -> Written
    ensures { OnOk result (Adds text.old (hart_at y hart) text.new) }
{
    write!(
        text,
        "<text x='28' y='{y}' font-size='13' font-weight='bold'>h{hart}</text>\n"
    )
}

// Adds the names of the strip's numbers.
fn write_strip_names(text: &mut String, y: usize) -> Written
    requires { y ≤ 5000000000000 }
    ensures { OnOk result (Adds text.old (strip_names y) text.new) }
{
    write_at(text, 28, y + 11, "unmet")?;
    write_at(text, 28, y + 25, "idle")
}

/// Adds the axis of all rows.
pub(crate) fn write_ticks(text: &mut String, drawing: &Drawing) -> Written
    ensures { OnOk result (Adds text.old
        (ticks_text (view_of drawing.now) 0 drawing.now.list.now) text.new) }
{
    for (k, entry) in drawing.list.iter().enumerate() {
        write_tick(text, drawing, k, *entry)?;
    }
    Ok(())
}

// Adds a line, a number and what the entry does, if the entry has a number and its row is shown.
fn write_tick(text: &mut String, drawing: &Drawing, k: usize, entry: Entry) -> Written
    requires { k ≤ most_entries }
    ensures { OnOk result (Adds text.old (tick_text (view_of drawing.now) k entry) text.new) }
{
    let row = drawing.row_of(k);
    if k % drawing.every() != 0 || !drawing.is_shown(row) {
        return Ok(());
    }
    let (x, top) = (drawing.entry_x(k), drawing.row_y(row));
    write_guide(text, drawing, x, top, "#d5dade")?;
    write_number(text, x, top + 12, k)?;
    write_deed(text, drawing, x, top, entry)
}

/// Adds a line across the lanes of a row, with this stroke.
#[tactic(auto, unfolding(crate::specs::SvgMarks::guide_text))]
pub(crate) fn write_guide(
    text: &mut String,
    drawing: &Drawing,
    x: usize,
    top: usize,
    stroke: &str,
) -> Written
    requires { top ≤ 4000000000000 }
    ensures { OnOk result (Adds text.old
        (guide_text (view_of drawing.now) x top stroke.now) text.new) }
{
    let (upper, height) = (top + 40, 44 * drawing.plan().harts() as usize);
    write!(
        text,
        "<path d='M{x} {upper}v{height}' stroke='{stroke}'/>\n"
    )
}

// Adds what an entry does, where there is room.
fn write_deed(text: &mut String, drawing: &Drawing, x: usize, top: usize, entry: Entry) -> Written
    requires { top ≤ 4000000000000 }
    ensures { OnOk result (Adds text.old (deed_text (view_of drawing.now) x top entry) text.new) }
{
    if drawing.step() < 40 {
        return Ok(());
    }
    let who = who_text(drawing.alloc, entry)?;
    write_at(text, x, top + 24, deed(entry))?;
    write_at(text, x, top + 36, who.as_str())
}

// Whose entry it is, and of which site.
fn who_text(alloc: Global, entry: Entry) -> Result<String, AllocError>
    ensures { IfOk result (λ who. string_bytes who ≡ who_text entry) }
{
    let (hart, site) = (hart_of(entry), site_of(entry));
    format!(in alloc; "h{hart} s{site}")
}

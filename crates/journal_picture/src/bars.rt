//! The bars of the picture.
ghost use Rattle.std.specs.Prelude.{◌≡◌, ◌≤◌, ◌+◌, IfOk, OnOk, length, string_bytes};
ghost use Rattle.std.specs.Fmt.{decimal};
ghost use Rattle.journal_picture.specs.Texts.{Adds};
ghost use Rattle.journal_picture.specs.Views.{view_of};
ghost use Rattle.journal_picture.specs.Scale.{row_of};
ghost use Rattle.journal_picture.specs.SvgBars.{about_text, bar_text, bars_text, base_fill, fill_text, first_in, kind_label, label_text, lanes_svg, last_in, mark_svg, part_text, placed_bar, rect_text, row_count, shape_of, since_text, site_fill, stay_title, until_text};
ghost use Rattle.journal_picture.specs.TextPicture.{site_name};

use crate::drawing::Drawing;
use crate::lanes::last_or;
use crate::scale::{bar_y, times};
use crate::shape::{Shape, kind_name};
use crate::stay::{Stay, stays_of};
use crate::words::{Written, site_name};
use std::alloc::{AllocError, Global};

// The position of a bar and its width. Why the bounds: no sum of them overflows.
#[derive(Clone, Copy)]
struct Bar {
    x: usize,
    y: usize,
    width: usize,
    ghost left: { x ≤ 4000000000000 },
    ghost upper: { y ≤ 6000000000000 },
    ghost wide: { width ≤ 4000000000000 },
}

/// Adds the bars of all harts.
pub(crate) fn write_lanes(text: &mut String, drawing: &Drawing) -> Written
    ensures { OnOk result (Adds text.old
        (lanes_svg (view_of drawing.now) 0 drawing.now.board.plan.harts) text.new) }
{
    for hart in 0..drawing.plan().harts() {
        let stays = stays_of(drawing.alloc, drawing.plan(), hart, drawing.list)?;
        write_bars(text, drawing, &stays)?;
    }
    Ok(())
}

// Adds the bars of these stays.
fn write_bars(text: &mut String, drawing: &Drawing, stays: &[Stay]) -> Written
    ensures { OnOk result (Adds text.old (bars_text (view_of drawing.now) stays.now) text.new) }
{
    for stay in stays {
        write_bar(text, drawing, *stay)?;
    }
    Ok(())
}

// Adds the bars of a stay, one in each of its rows that is shown.
fn write_bar(text: &mut String, drawing: &Drawing, stay: Stay) -> Written
    ensures { OnOk result (Adds text.old (bar_text (view_of drawing.now) stay) text.new) }
{
    let first = drawing.row_of(stay.first as usize);
    let count = row_count(drawing, stay);
    for i in 0..count {
        write_part(text, drawing, stay, first + i)?;
    }
    Ok(())
}

// In how many rows the stay has places.
fn row_count(drawing: &Drawing, stay: Stay) -> usize
    ensures same { result ≡ row_count (view_of drawing.now) stay }
    ensures few { row_of (view_of drawing.now) stay.first + result ≤ 4294967296 }
{
    let last = last_or(drawing.list.len(), stay.last);
    (drawing.row_of(last) + 1).saturating_sub(drawing.row_of(stay.first as usize))
}

// Adds the part of a stay in a row, if the row is shown.
fn write_part(text: &mut String, drawing: &Drawing, stay: Stay, row: usize) -> Written
    requires { row ≤ 4294967296 }
    ensures { OnOk result (Adds text.old (part_text (view_of drawing.now) stay row) text.new) }
{
    if !drawing.is_shown(row) {
        return Ok(());
    }
    let first = first_in(drawing, stay, row);
    let places = (last_in(drawing, stay, row) + 1).saturating_sub(first);
    let bar = Bar {
        x: drawing.place_x(first),
        y: bar_y(drawing.row_y(row), stay.hart, drawing.level_of(stay.site)),
        width: times(drawing.step(), places),
    };
    write_placed(text, drawing, bar, stay)
}

// The first place of a stay in a row.
fn first_in(drawing: &Drawing, stay: Stay, row: usize) -> usize
    requires { row ≤ 4294967296 }
    ensures same { result ≡ first_in (view_of drawing.now) stay row }
    ensures bound { result ≤ 3500000000000 }
{
    (stay.first as usize).max(times(drawing.per_row(), row))
}

// The last place of a stay in a row.
fn last_in(drawing: &Drawing, stay: Stay, row: usize) -> usize
    requires { row ≤ 4294967296 }
    ensures same { result ≡ last_in (view_of drawing.now) stay row }
    ensures bound { result ≤ 4294967295 }
{
    let end = times(drawing.per_row(), row) + (drawing.per_row() - 1);
    last_or(drawing.list.len(), stay.last).min(end)
}

// Adds the bar of a stay at its place.
fn write_placed(text: &mut String, drawing: &Drawing, bar: Bar, stay: Stay) -> Written
    ensures { OnOk result (Adds text.old
        (placed_bar (view_of drawing.now) bar.x bar.y bar.width stay) text.new) }
{
    let shape = shape_of(drawing.shapes, stay.site);
    let fill = fill(shape, stay.hart, drawing.level_of(stay.site));
    let title = stay_title(drawing, stay)?;
    write_rect(text, bar.x, bar.y, bar.width, fill, title.as_str())?;
    write_label(text, drawing.alloc, bar, stay.site, shape)
}

// The title of a bar.
fn stay_title(drawing: &Drawing, stay: Stay) -> Result<String, AllocError>
    ensures { IfOk result (λ title. string_bytes title ≡ stay_title drawing.now.shapes.now stay) }
{
    let (alloc, hart) = (drawing.alloc, stay.hart);
    let name = site_name(alloc, stay.site)?;
    let about = about_text(alloc, shape_of(drawing.shapes, stay.site), hart)?;
    let since = since_text(alloc, stay.first)?;
    let until = until_text(alloc, stay.last)?;
    let (name, about) = (name.as_str(), about.as_str());
    let (since, until) = (since.as_str(), until.as_str());
    format!(in alloc; "h{hart} in {name}{about}{since}{until}")
}

/// What the site is; the base is where the body runs, or where a hart is idle.
pub(crate) fn about_text(
    alloc: Global,
    shape: Option<Shape>,
    hart: u8,
) -> Result<String, AllocError>
    ensures { IfOk result (λ about. string_bytes about ≡ about_text shape hart) }
{
    match shape {
        None if hart == 0 => String::from_str(alloc, ", the program's body"),
        None => String::from_str(alloc, ", idle"),
        Some(shape) => {
            let name = kind_name(alloc, shape.kind)?;
            let (kind, line) = (name.as_str(), shape.line);
            format!(in alloc; ", {kind}, line {line}")
        }
    }
}

// Which entry brings the hart.
fn since_text(alloc: Global, first: u32) -> Result<String, AllocError>
    ensures { IfOk result (λ since. string_bytes since ≡ since_text first) }
{
    if first == 0 {
        return String::from_str(alloc, ", from the start");
    }
    let entry = first - 1;
    format!(in alloc; ", from entry {entry}")
}

// Which entry takes the hart away.
fn until_text(alloc: Global, last: Option<u32>) -> Result<String, AllocError>
    ensures { IfOk result (λ until. string_bytes until ≡ until_text last) }
{
    match last {
        None => String::from_str(alloc, " to the end"),
        Some(last) => format!(in alloc; " to entry {last}"),
    }
}

/// Adds a rectangle with a title.
#[tactic(auto, unfolding(crate::specs::SvgBars::rect_text))]
pub(crate) fn write_rect(
    text: &mut String,
    x: usize,
    y: usize,
    width: usize,
    fill: &str,
    title: &str,
) -> Written
    ensures { OnOk result (Adds text.old (rect_text x y width fill.now title.now) text.new) }
{
    write!(
        text,
        "<rect x='{x}' y='{y}' width='{width}' height='14' fill='{fill}'><title>{title}</title></rect>\n"
    )
}

/// Adds words at a place.
#[tactic(auto, unfolding(crate::specs::SvgBars::mark_svg))]
pub(crate) fn write_at(text: &mut String, x: usize, y: usize, words: &str) -> Written
    ensures { OnOk result (Adds text.old (mark_svg x y words.now) text.new) }
{
    write!(text, "<text x='{x}' y='{y}'>{words}</text>\n")
}

/// Adds a number at a place.
#[tactic(auto, unfolding(crate::specs::SvgBars::mark_svg))]
pub(crate) fn write_number(text: &mut String, x: usize, y: usize, number: usize) -> Written
    ensures { OnOk result (Adds text.old (mark_svg x y (decimal number)) text.new) }
{
    write!(text, "<text x='{x}' y='{y}'>{number}</text>\n")
}

// Adds the label of a bar, where there is room.
fn write_label(
    text: &mut String,
    alloc: Global,
    bar: Bar,
    site: u16,
    shape: Option<Shape>,
) -> Written
    ensures { OnOk result (Adds text.old
        (label_text bar.x bar.y bar.width (site_name site) shape) text.new) }
{
    let mut label = site_name(alloc, site)?;
    if bar.width / 7 <= label.len() {
        return Ok(());
    }
    add_kind(&mut label, alloc, shape, bar.width)?;
    write_at(text, bar.x + bar.width / 2, bar.y + 11, label.as_str())
}

// Adds the kind of a bar's site to the bar's label, where there is room for the kind.
fn add_kind(label: &mut String, alloc: Global, shape: Option<Shape>, width: usize) -> Written
    ensures { OnOk result (Adds label.old
        (kind_label shape (length (string_bytes label.old)) width) label.new) }
{
    let Some(shape) = shape else {
        return Ok(());
    };
    let kind = kind_name(alloc, shape.kind)?;
    if (width / 7).saturating_sub(kind.len() + 1) <= label.len() {
        return Ok(());
    }
    label.push_str(" ")?;
    label.push_str(kind.as_str())
}

/// The shape of a site; the base has none.
pub(crate) fn shape_of(shapes: &[Shape], site: u16) -> Option<Shape>
    ensures { result ≡ shape_of shapes.now site }
{
    if site == 0 {
        return None;
    }
    shapes.get(site as usize - 1).copied()
}

/// The colour of a bar and its outline.
pub(crate) fn fill(shape: Option<Shape>, hart: u8, level: usize) -> &'static str
    ensures { result.now ≡ fill_text shape hart level }
{
    match shape {
        None => base_fill(hart),
        Some(shape) => site_fill(shape.phased, level),
    }
}

/// The colour of a hart in the base.
pub(crate) fn base_fill(hart: u8) -> &'static str
    ensures { result.now ≡ base_fill hart }
{
    if hart == 0 {
        "#e9f3e4' stroke='#4f7a3a"
    } else {
        "#e3e6e9' stroke='#9aa4ad"
    }
}

/// The colour of a site by its depth, and its outline, which is dashed if the site has phases.
pub(crate) fn site_fill(phased: bool, level: usize) -> &'static str
    ensures { result.now ≡ site_fill phased level }
{
    match (level, phased) {
        (1, false) => "#cfe3f8' stroke='#2c5d8f",
        (1, true) => "#cfe3f8' stroke-dasharray='4 2' stroke='#2c5d8f",
        (2, false) => "#9fc8f0' stroke='#2c5d8f",
        (2, true) => "#9fc8f0' stroke-dasharray='4 2' stroke='#2c5d8f",
        (_, false) => "#6fabe4' stroke='#2c5d8f",
        (_, true) => "#6fabe4' stroke-dasharray='4 2' stroke='#2c5d8f",
    }
}

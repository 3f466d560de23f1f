//! The picture as SVG.
ghost use Rattle.std.specs.Prelude.{◌≡◌, ◌≤◌, ◌++◌, IfOk, OnOk, length};
ghost use Rattle.transfer_table.specs.Plan.{site_count, most_entries};
ghost use Rattle.journal_picture.specs.SvgPicture.{base_swatches, end_svg, escaped, escaped_byte, frame_svg, head_of, head_svg, legend_svg, marks_note, note_svg, over_svg, picture_svg, shown_svg, site_swatches, svg_picture, swatch_svg, title_svg, words_svg};
ghost use Rattle.journal_picture.specs.Texts.{Adds};
ghost use Rattle.journal_picture.specs.Views.{view_of};

use crate::axis::{write_rows, write_ticks};
use crate::bars::{base_fill, site_fill, write_at, write_lanes, write_rect};
use crate::drawing::Drawing;
use crate::drawn::before;
use crate::faults::words_of;
use crate::marks::{write_fault, write_marks, write_strip};
use crate::shape::Shape;
use crate::table::{tables_height, write_tables};
use crate::words::Written;
use std::alloc::{AllocError, Global};
use transfer_table::{Entry, Plan, first_fault};

/// The picture of the list as SVG 1.1, up to its first fault; the plan's sites have these shapes. The verdict stands below the title,
/// with `<` and `&` escaped; in place of a byte that is no printable letter of ASCII and no line's end stands `?`. The list has at
/// most 65,535 entries. Which sites are meant to be entered is a truth value for each, that of site `s` at index `s - 1`.
///
/// The places stand in rows of at most 1,500 units. A picture has at most 32 rows: if there are more, the first 16 and the last 16
/// are shown, and the picture says so. The table of sites below lists at most 40: if there are more, the first 20 and the last 20.
/// Below it is the table of harts.
///
/// # Errors
///
/// `AllocError` if an allocation fails.
pub fn svg_picture(
    alloc: Global,
    plan: &Plan,
    meant: &[bool],
    shapes: &[Shape],
    list: &[Entry],
    verdict: &[u8],
) -> Result<Vec<u8>, AllocError>
    requires few { length list.now ≤ most_entries }
    requires meant { length meant.now ≡ site_count plan.now }
    ensures { IfOk result
        (λ text. text.items ≡ svg_picture plan.now meant.now shapes.now list.now verdict.now) }
{
    let fault = first_fault(alloc, plan, meant, list)?;
    let words = words_of(alloc, plan, list, fault)?;
    let drawing = Drawing::new(alloc, plan, shapes, before(fault, list))?;
    let mut text = String::new(alloc);
    write_shown(&mut text, &drawing, fault.is_some(), words.as_str())?;
    ended(text.into_bytes(), verdict)
}

// The text with the verdict, and the end.
fn ended(text: Vec<u8>, verdict: &[u8]) -> Result<Vec<u8>, AllocError>
    ensures { IfOk result (λ whole. whole.items ≡ text.items ++ end_svg verdict.now) }
{
    let mut whole = text;
    add_escaped(&mut whole, verdict)?;
    whole.extend_from_slice(b"</text>\n</svg>\n")?;
    Ok(whole)
}

// Adds the verdict, as XML has it.
fn add_escaped(whole: &mut Vec<u8>, verdict: &[u8]) -> Written
    ensures { OnOk result (whole.new.items ≡ whole.old.items ++ escaped verdict.now) }
{
    for byte in verdict {
        add_byte(whole, *byte)?;
    }
    Ok(())
}

// Adds a byte of the verdict, as XML has it.
fn add_byte(whole: &mut Vec<u8>, byte: u8) -> Written
    ensures { OnOk result (whole.new.items ≡ whole.old.items ++ escaped_byte byte) }
{
    match byte {
        b'<' => whole.extend_from_slice(b"&lt;"),
        b'&' => whole.extend_from_slice(b"&amp;"),
        b'\n' | b' '..=b'~' => Ok(whole.push(byte)?),
        _ => Ok(whole.push(b'?')?),
    }
}

// Adds all that stands before the verdict.
fn write_shown(text: &mut String, drawing: &Drawing, faulty: bool, words: &str) -> Written
    ensures { OnOk result (Adds text.old
        (shown_svg (view_of drawing.now) faulty words.now) text.new) }
{
    write_frame(text, drawing)?;
    write_picture(text, drawing, faulty, words)?;
    write_tables(text, drawing)?;
    text.push_str("<text x='16' y='52' font-size='14' text-anchor='start'>")
}

// Adds the frame: head, title, note and legend.
fn write_frame(text: &mut String, drawing: &Drawing) -> Written
    ensures { OnOk result (Adds text.old (frame_svg (view_of drawing.now)) text.new) }
{
    let plan = drawing.plan();
    write_head(text, drawing)?;
    write_title(text, plan.harts(), plan.sites(), drawing.list.len())?;
    write_note(text, drawing.rows())?;
    write_legend(text, drawing)
}

// Adds the rows: what lies under the bars, the bars, and what lies over them.
fn write_picture(text: &mut String, drawing: &Drawing, faulty: bool, words: &str) -> Written
    ensures { OnOk result (Adds text.old
        (picture_svg (view_of drawing.now) faulty words.now) text.new) }
{
    write_rows(text, drawing)?;
    write_ticks(text, drawing)?;
    write_lanes(text, drawing)?;
    write_over(text, drawing, faulty, words)
}

// Adds what lies over the bars, and the fault with its words.
fn write_over(text: &mut String, drawing: &Drawing, faulty: bool, words: &str) -> Written
    ensures { OnOk result (Adds text.old
        (over_svg (view_of drawing.now) faulty words.now) text.new) }
{
    write_marks(text, drawing)?;
    write_strip(text, drawing)?;
    write_fault(text, drawing, faulty, words)
}

// Adds that rows are left out, if some are.
fn write_note(text: &mut String, rows: usize) -> Written
    ensures { OnOk result (Adds text.old (note_svg rows) text.new) }
{
    if rows <= 32 {
        return Ok(());
    }
    write!(
        text,
        "<text x='260' y='72' text-anchor='start'>of {rows} rows the first 16 and the last 16 are shown</text>\n"
    )
}

// Adds the head.
fn write_head(text: &mut String, drawing: &Drawing) -> Written
    ensures { OnOk result (Adds text.old (head_svg (view_of drawing.now)) text.new) }
{
    let height = drawing.rows_bottom() + 76 + tables_height(drawing);
    write_head_of(text, drawing.width(), height)
}

// Adds the head of a picture of this size.
#[tactic(auto, unfolding(crate::specs::SvgPicture::head_of))]
fn write_head_of(text: &mut String, width: usize, height: usize) -> Written
    ensures { OnOk result (Adds text.old (head_of width height) text.new) }
{
    write!(
        text,
        "<svg xmlns='http://www.w3.org/2000/svg' version='1.1' width='{width}' height='{height}' viewBox='0 0 {width} {height}' font-family='Helvetica, Arial, sans-serif' font-size='11' text-anchor='middle'>\n<rect width='100%' height='100%' fill='#ffffff'/>\n"
    )
}

// Adds the title with these numbers.
#[tactic(auto, unfolding(crate::specs::SvgPicture::title_svg))]
fn write_title(text: &mut String, harts: u8, sites: u16, entries: usize) -> Written
    ensures { OnOk result (Adds text.old (title_svg harts sites entries) text.new) }
{
    write!(
        text,
        "<text x='16' y='30' font-size='19' font-weight='bold' text-anchor='start'>Lithe, harts {harts}, sites {sites}, entries {entries}</text>\n<text x='56' y='72' text-anchor='start'>entries in order, not time</text>\n"
    )
}

// Adds the legend.
fn write_legend(text: &mut String, drawing: &Drawing) -> Written
    ensures { OnOk result (Adds text.old (legend_svg (view_of drawing.now)) text.new) }
{
    let y = drawing.rows_bottom() + 8;
    text.push_str("<g text-anchor='start'>\n")?;
    write_base_swatches(text, y)?;
    write_site_swatches(text, y)?;
    write_words(text, y + 32, y + 50, marks_note(drawing.step()))
}

// Adds the colours of the base.
fn write_base_swatches(text: &mut String, y: usize) -> Written
    requires { y ≤ 5000000000000 }
    ensures { OnOk result (Adds text.old (base_swatches y) text.new) }
{
    write_swatch(text, 56, y, base_fill(0), "the program's body")?;
    write_swatch(text, 216, y, base_fill(1), "an idle hart")
}

// Adds the colours of sites, and that of a missed wish.
fn write_site_swatches(text: &mut String, y: usize) -> Written
    requires { y ≤ 5000000000000 }
    ensures { OnOk result (Adds text.old (site_swatches y) text.new) }
{
    write_swatch(text, 336, y, site_fill(false, 1), "a site")?;
    write_swatch(text, 416, y, site_fill(true, 1), "a site of phases")?;
    write_swatch(text, 556, y, "#f6b3b9' stroke='#b00020", "a missed wish")
}

// Adds a colour of the legend and what it means.
fn write_swatch(text: &mut String, x: usize, y: usize, fill: &str, words: &str) -> Written
    requires left { x ≤ 100000 }
    requires upper { y ≤ 5000000000000 }
    ensures { OnOk result (Adds text.old (swatch_svg x y fill.now words.now) text.new) }
{
    write_rect(text, x, y, 24, fill, words)?;
    write_at(text, x + 32, y + 11, words)
}

// Adds the legend's lines about heights and marks.
#[tactic(auto, unfolding(crate::specs::SvgPicture::words_svg))]
fn write_words(text: &mut String, first: usize, second: usize, note: &str) -> Written
    ensures { OnOk result (Adds text.old (words_svg first second note.now) text.new) }
{
    write!(
        text,
        "<text x='56' y='{first}'>higher and darker: deeper in the tree. a missed wish: a child of the base has an unmet wish while a hart is idle.</text>\n<text x='56' y='{second}'>{note}</text>\n</g>\n"
    )
}

// What the marks mean. A mark has words if a place is wide enough.
fn marks_note(step: usize) -> &'static str
    ensures { result.now ≡ marks_note step }
{
    if step < 40 {
        "a line: the home requests harts. a dot: wishes that no hart met. red and slanted: a skip."
    } else {
        "+1: the home requests a hart. 1 unmet: a wish that no hart met. skip: a site that isn't entered."
    }
}

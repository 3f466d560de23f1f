//! The table of harts, in text and in SVG.
ghost use Rattle.std.specs.Prelude.{◌≡◌, ◌≤◌, OnOk, length};
ghost use Rattle.journal_picture.specs.SvgTable.{hart_row, hart_rows, harts_head, harts_height, harts_table};
ghost use Rattle.journal_picture.specs.TextPicture.{hart_line, hart_lines, harts_text, travel_cells};
ghost use Rattle.journal_picture.specs.Texts.{Adds};

use crate::travels::Travels;
use crate::tree::write_number;
use crate::words::Written;
use std::alloc::Global;

/// Adds the names of the numbers and a line for each hart.
pub(crate) fn write_harts_text(text: &mut String, alloc: Global, travels: &[Travels]) -> Written
    ensures { OnOk result (Adds text.old (harts_text travels.now) text.new) }
{
    text.push_str("\n  made stays sites  hart\n")?;
    write_lines(text, alloc, travels)
}

// Adds the lines of all harts.
fn write_lines(text: &mut String, alloc: Global, travels: &[Travels]) -> Written
    ensures { OnOk result (Adds text.old (hart_lines 0 travels.now) text.new) }
{
    for (hart, numbers) in travels.iter().enumerate() {
        write_line(text, alloc, hart, *numbers)?;
    }
    Ok(())
}

// Adds the line of a hart.
fn write_line(text: &mut String, alloc: Global, hart: usize, travels: Travels) -> Written
    ensures { OnOk result (Adds text.old (hart_line hart travels) text.new) }
{
    write_travels(text, alloc, travels)?;
    write!(text, "  h{hart}\n")
}

// Adds the numbers of a hart.
fn write_travels(text: &mut String, alloc: Global, travels: Travels) -> Written
    ensures { OnOk result (Adds text.old (travel_cells travels) text.new) }
{
    write_number(text, alloc, travels.entries)?;
    write_number(text, alloc, travels.stays)?;
    write_number(text, alloc, u32::from(travels.sites))
}

/// How high the table of so many harts is.
pub(crate) fn harts_height(harts: u8) -> usize
    ensures same { result ≡ harts_height harts }
    ensures low { result ≤ 5000 }
{
    18 * (harts as usize + 2)
}

/// Adds the table of harts to the SVG, with its first line at this height.
pub(crate) fn write_harts_table(text: &mut String, travels: &[Travels], top: usize) -> Written
    requires few { length travels.now ≤ 255 }
    requires upper { top ≤ 5000000001000 }
    ensures { OnOk result (Adds text.old (harts_table top travels.now) text.new) }
{
    write_harts_head(text, top)?;
    write_hart_rows(text, travels, top)
}

// Adds the names of the columns.
#[tactic(auto, unfolding(crate::specs::SvgTable::harts_head))]
fn write_harts_head(text: &mut String, y: usize) -> Written
    ensures { OnOk result (Adds text.old (harts_head y) text.new) }
{
    write!(
        text,
        "<text y='{y}' font-weight='bold'><tspan x='86'>entries made</tspan><tspan x='166'>stays</tspan><tspan x='246'>sites visited</tspan><tspan x='306' text-anchor='start'>hart</tspan></text>\n"
    )
}

// Adds the lines of all harts.
fn write_hart_rows(text: &mut String, travels: &[Travels], top: usize) -> Written
    requires few { length travels.now ≤ 255 }
    requires upper { top ≤ 5000000001000 }
    ensures { OnOk result (Adds text.old (hart_rows top 0 travels.now) text.new) }
{
    for (hart, numbers) in travels.iter().enumerate() {
        write_hart_row(text, top + 18 * (hart + 1), *numbers, hart)?;
    }
    Ok(())
}

// Adds the line of a hart at a height.
#[tactic(auto, unfolding(crate::specs::SvgTable::hart_row))]
fn write_hart_row(text: &mut String, y: usize, travels: Travels, hart: usize) -> Written
    ensures { OnOk result (Adds text.old (hart_row y travels hart) text.new) }
{
    let (entries, stays, sites) = (travels.entries, travels.stays, travels.sites);
    write!(
        text,
        "<text y='{y}'><tspan x='86'>{entries}</tspan><tspan x='166'>{stays}</tspan><tspan x='246'>{sites}</tspan><tspan x='306' text-anchor='start'>h{hart}</tspan></text>\n"
    )
}

//! The table of sites, and with it the table of harts.
ghost use Rattle.std.specs.Prelude.{◌≡◌, ◌≤◌, IfOk, OnOk, string_bytes};
ghost use Rattle.transfer_table.specs.Plan.{IsSite, site_count};
ghost use Rattle.journal_picture.specs.SvgTable.{inside_text, is_listed, listed_row, rows_from, site_words, sites_note, slot_at, table_head, table_height, table_svg, table_top, tables_height, tables_svg, visits_part, wishes_part};
ghost use Rattle.journal_picture.specs.Texts.{Adds};
ghost use Rattle.journal_picture.specs.Views.{view_of};

use crate::bars::{about_text, shape_of};
use crate::drawing::Drawing;
use crate::harts::{harts_height, write_harts_table};
use crate::tree::write_fate;
use crate::visits::Visits;
use crate::words::{Written, site_name};
use std::alloc::{AllocError, Global};

/// How high both tables are.
pub(crate) fn tables_height(drawing: &Drawing) -> usize
    ensures same { result ≡ tables_height (view_of drawing.now) }
    ensures low { result ≤ 6000 }
{
    table_height(drawing.plan().sites()) + harts_height(drawing.plan().harts())
}

/// Adds the tables of sites and of harts.
pub(crate) fn write_tables(text: &mut String, drawing: &Drawing) -> Written
    ensures { OnOk result (Adds text.old (tables_svg (view_of drawing.now)) text.new) }
{
    write_table(text, drawing)?;
    let next = table_top(drawing) + table_height(drawing.plan().sites());
    write_harts_table(text, &drawing.travels, next)
}

// The height of the first line of the table of sites.
fn table_top(drawing: &Drawing) -> usize
    ensures same { result ≡ table_top (view_of drawing.now) }
    ensures upper { result ≤ 5000000000000 }
{
    drawing.rows_bottom() + 90
}

// How high the table of so many sites is.
fn table_height(sites: u16) -> usize
    ensures same { result ≡ table_height sites }
    ensures low { result ≤ 1000 }
{
    if sites == 0 {
        return 0;
    }
    18 * ((sites as usize).min(40) + 2)
}

// Adds the table of sites, if there are some.
fn write_table(text: &mut String, drawing: &Drawing) -> Written
    ensures { OnOk result (Adds text.old (table_svg (view_of drawing.now)) text.new) }
{
    let sites = drawing.plan().sites();
    if sites == 0 {
        return Ok(());
    }
    let note = sites_note(drawing.alloc, sites)?;
    write_table_head(text, table_top(drawing), note.as_str())?;
    write_rows(text, drawing)
}

// The name of the sites' column, which says if sites are left out.
fn sites_note(alloc: Global, sites: u16) -> Result<String, AllocError>
    ensures { IfOk result (λ note. string_bytes note ≡ sites_note sites) }
{
    if sites <= 40 {
        String::from_str(alloc, "site")
    } else {
        format!(in alloc; "site: of {sites} the first 20 and the last 20")
    }
}

// Adds the names of the columns.
#[tactic(auto, unfolding(crate::specs::SvgTable::table_head))]
fn write_table_head(text: &mut String, y: usize, note: &str) -> Written
    ensures { OnOk result (Adds text.old (table_head y note.now) text.new) }
{
    write!(
        text,
        "<text y='{y}' font-weight='bold'><tspan x='86'>requested</tspan><tspan x='146'>met</tspan><tspan x='196'>unmet</tspan><tspan x='266'>most guests</tspan><tspan x='366'>entries inside</tspan><tspan x='426' text-anchor='start'>{note}</tspan></text>\n"
    )
}

// Adds the lines of all sites that are listed.
fn write_rows(text: &mut String, drawing: &Drawing) -> Written
    ensures { OnOk result (Adds text.old
        (rows_from (view_of drawing.now) 1 (site_count drawing.now.board.plan)) text.new) }
{
    for i in 0..drawing.plan().sites() {
        write_listed(text, drawing, i + 1)?;
    }
    Ok(())
}

// Adds the line of a site, if it is listed.
fn write_listed(text: &mut String, drawing: &Drawing, site: u16) -> Written
    requires { IsSite drawing.now.board.plan site }
    ensures { OnOk result (Adds text.old (listed_row (view_of drawing.now) site) text.new) }
{
    let sites = drawing.plan().sites();
    if !is_listed(sites, site) {
        return Ok(());
    }
    let words = site_words(drawing, site)?;
    let y = table_top(drawing) + 18 * slot_at(sites, site);
    write_wishes_part(
        text,
        y,
        drawing.board.asked(site),
        drawing.board.wishes(site),
    )?;
    write_visits_part(text, drawing.visits[site as usize - 1], words.as_str())
}

// Whether the site is one of the first 20 or of the last 20.
fn is_listed(sites: u16, site: u16) -> bool
    ensures { result ≡ is_listed sites site }
{
    site <= 20 || (sites as usize) < site as usize + 20
}

// The position of a site that is listed.
fn slot_at(sites: u16, site: u16) -> usize
    ensures same { result ≡ slot_at sites site }
    ensures few { result ≤ 40 }
{
    if site <= 20 {
        site as usize
    } else {
        (site as usize)
            .saturating_sub((sites as usize).saturating_sub(40))
            .min(40)
    }
}

// Adds the line's part about wishes.
#[tactic(auto, unfolding(crate::specs::SvgTable::wishes_part))]
fn write_wishes_part(text: &mut String, y: usize, requested: u8, unmet: u8) -> Written
    ensures { OnOk result (Adds text.old (wishes_part y requested unmet) text.new) }
{
    let met = requested.saturating_sub(unmet);
    write!(
        text,
        "<text y='{y}'><tspan x='86'>{requested}</tspan><tspan x='146'>{met}</tspan><tspan x='196'>{unmet}</tspan>"
    )
}

// Adds the line's part about visits, and the site.
#[tactic(auto, unfolding(crate::specs::SvgTable::visits_part))]
fn write_visits_part(text: &mut String, visits: Visits, words: &str) -> Written
    ensures { OnOk result (Adds text.old (visits_part visits words.now) text.new) }
{
    let (guests, entries) = (visits.guests, visits.entries);
    write!(
        text,
        "<tspan x='266'>{guests}</tspan><tspan x='366'>{entries}</tspan><tspan x='426' text-anchor='start'>{words}</tspan></text>\n"
    )
}

// The site, what it is, where it is, and what became of it.
fn site_words(drawing: &Drawing, site: u16) -> Result<String, AllocError>
    requires { IsSite drawing.now.board.plan site }
    ensures { IfOk result (λ words. string_bytes words ≡ site_words (view_of drawing.now) site) }
{
    let about = about_text(drawing.alloc, shape_of(drawing.shapes, site), 0)?;
    let mut words = site_name(drawing.alloc, site)?;
    words.push_str(about.as_str())?;
    write_inside(&mut words, drawing.plan().parent(site))?;
    write_fate(
        &mut words,
        drawing.board.stage(site),
        drawing.board.home(site),
    )?;
    Ok(words)
}

// Adds the site around a site, if there is one.
fn write_inside(words: &mut String, around: u16) -> Written
    ensures { OnOk result (Adds words.old (inside_text around) words.new) }
{
    if around == 0 {
        Ok(())
    } else {
        write!(words, ", in s{around}")
    }
}

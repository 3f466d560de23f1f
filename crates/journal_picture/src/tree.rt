//! The tree of the sites in text, with their numbers.
ghost use Rattle.std.specs.Prelude.{◌≡◌, ◌≤◌, OnOk, length};
ghost use Rattle.std.specs.Fmt.{decimal};
ghost use Rattle.transfer_table.specs.Plan.{IsSite, site_count};
ghost use Rattle.transfer_table.specs.Table.{row};
ghost use Rattle.journal_picture.specs.TextPicture.{cell, depth_of, fate_text, home_text, site_line, site_lines, site_start, tree_text, visit_cells, wish_cells};
ghost use Rattle.journal_picture.specs.Texts.{Adds};
ghost use Rattle.journal_picture.specs.Views.{view_of};
ghost use Rattle.journal_picture.specs.Visits.{visits_at};

use crate::drawing::Drawing;
use crate::shape::{Shape, kind_name};
use crate::visits::Visits;
use crate::words::{Written, write_blanks, write_cell};
use std::alloc::Global;
use transfer_table::{Plan, Stage};

/// Adds the names of the numbers with the base, and a line for each site.
pub(crate) fn write_tree(text: &mut String, drawing: &Drawing) -> Written
    requires { length drawing.now.shapes.now ≡ site_count drawing.now.board.plan }
    ensures { OnOk result (Adds text.old (tree_text (view_of drawing.now)) text.new) }
{
    text.push_str("   req   met unmet guest  made  base\n")?;
    write_sites(text, drawing)
}

// Adds a line for each site.
fn write_sites(text: &mut String, drawing: &Drawing) -> Written
    requires { length drawing.now.shapes.now ≡ site_count drawing.now.board.plan }
    ensures { OnOk result (Adds text.old
        (site_lines (view_of drawing.now) 1 drawing.now.shapes.now) text.new) }
{
    let _sites = drawing.plan().sites();
    for (i, shape) in drawing.shapes.iter().enumerate() {
        write_site(text, drawing, i as u16 + 1, *shape)?;
    }
    Ok(())
}

// Adds the line of a site.
fn write_site(text: &mut String, drawing: &Drawing, site: u16, shape: Shape) -> Written
    requires { IsSite drawing.now.board.plan site }
    ensures { OnOk result (Adds text.old (site_line (view_of drawing.now) site shape) text.new) }
{
    write_wishes(text, drawing, site)?;
    write_visits(text, drawing.alloc, visits_at(drawing, site))?;
    write_start(text, drawing, site, shape)?;
    write_fate(text, drawing.board.stage(site), drawing.board.home(site))?;
    text.push_str("\n")
}

// The numbers of a site.
fn visits_at(drawing: &Drawing, site: u16) -> Visits
    requires { IsSite drawing.now.board.plan site }
    ensures { result ≡ visits_at drawing.now.visits.items site }
{
    drawing.visits[site as usize - 1]
}

// Adds how many harts a site requested, and how many of the wishes were met and weren't.
fn write_wishes(text: &mut String, drawing: &Drawing, site: u16) -> Written
    requires { IsSite drawing.now.board.plan site }
    ensures { OnOk result (Adds text.old (wish_cells (row drawing.now.board.state site)) text.new) }
{
    let (alloc, wishes) = (drawing.alloc, drawing.board.wishes(site));
    let asked = drawing.board.asked(site);
    write_number(text, alloc, u32::from(asked))?;
    write_number(text, alloc, u32::from(asked.saturating_sub(wishes)))?;
    write_number(text, alloc, u32::from(wishes))
}

// Adds the most guests of a site at once, and how many entries harts made in it.
fn write_visits(text: &mut String, alloc: Global, visits: Visits) -> Written
    ensures { OnOk result (Adds text.old (visit_cells visits) text.new) }
{
    write_number(text, alloc, u32::from(visits.guests))?;
    write_number(text, alloc, visits.entries)?;
    text.push_str("  ")
}

/// Adds a number in a cell.
pub(crate) fn write_number(text: &mut String, alloc: Global, number: u32) -> Written
    ensures { OnOk result (Adds text.old (cell (decimal number)) text.new) }
{
    let words = format!(in alloc; "{number}")?;
    write_cell(text, words.as_str())
}

// Adds the name of a site, what it is and where it stands.
fn write_start(text: &mut String, drawing: &Drawing, site: u16, shape: Shape) -> Written
    ensures { OnOk result (Adds text.old (site_start (view_of drawing.now) site shape) text.new) }
{
    let name = kind_name(drawing.alloc, shape.kind)?;
    let (kind, line) = (name.as_str(), shape.line);
    write_blanks(text, 2 * depth_of(drawing.plan(), site) as usize)?;
    write!(text, "s{site} {kind}, line {line}")
}

/// How deep a site is in the tree; the base is at depth 0.
pub(crate) fn depth_of(plan: &Plan, site: u16) -> u16
    ensures same { result ≡ depth_of plan.now site }
    ensures few { result ≤ site }
{
    let (mut at, mut depth) = (site, 0u16);
    for _i in 0..site {
        if at == 0 {
            return depth;
        }
        at = plan.parent(at);
        depth += 1;
    }
    depth
}

/// Adds what became of a site.
pub(crate) fn write_fate(text: &mut String, stage: Stage, home: Option<u8>) -> Written
    ensures { OnOk result (Adds text.old (fate_text stage home) text.new) }
{
    match stage {
        Stage::New => text.push_str(", not entered"),
        Stage::Live => {
            write_home(text, home)?;
            text.push_str(", not ended")
        }
        Stage::Gone => write_home(text, home),
    }
}

// Adds the home of a site, or that it was skipped.
fn write_home(text: &mut String, home: Option<u8>) -> Written
    ensures { OnOk result (Adds text.old (home_text home) text.new) }
{
    match home {
        None => text.push_str(", skipped"),
        Some(hart) => write!(text, ", home h{hart}"),
    }
}

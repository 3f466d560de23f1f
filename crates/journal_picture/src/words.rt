//! Words of both pictures.
ghost use Rattle.std.specs.Prelude.{◌≡◌, OnOk, string_bytes, IfOk};
ghost use Rattle.journal_picture.specs.TextPicture.{blanks, cell, name_cell, site_name};
ghost use Rattle.journal_picture.specs.Texts.{Adds};

use std::alloc::{AllocError, Global};

/// What a function returns that adds to a text.
pub(crate) type Written = Result<(), AllocError>;

/// Adds so many blanks.
pub(crate) fn write_blanks(text: &mut String, count: usize) -> Written
    ensures { OnOk result (Adds text.old (blanks count) text.new) }
{
    for _i in 0..count {
        text.push_str(" ")?;
    }
    Ok(())
}

/// Adds the words at the right of six columns.
pub(crate) fn write_cell(text: &mut String, words: &str) -> Written
    ensures { OnOk result (Adds text.old (cell words.now) text.new) }
{
    write_blanks(text, 6usize.saturating_sub(words.len()))?;
    text.push_str(words)
}

/// Adds the name at the left of three columns, so that `h9` and `h10` are equally wide.
pub(crate) fn write_name(text: &mut String, name: &str) -> Written
    ensures { OnOk result (Adds text.old (name_cell name.now) text.new) }
{
    text.push_str(name)?;
    write_blanks(text, 3usize.saturating_sub(name.len()))
}

/// The name of a site.
pub(crate) fn site_name(alloc: Global, site: u16) -> Result<String, AllocError>
    ensures { IfOk result (λ name. string_bytes name ≡ site_name site) }
{
    if site == 0 {
        String::from_str(alloc, "base")
    } else {
        format!(in alloc; "s{site}")
    }
}

//! The two parts of an input.
ghost use Rattle.std.specs.Prelude.{◌≡◌};
ghost use Rattle.std.specs.Option.{option_map};
ghost use Rattle.run_audit.specs.Parts.{parts_of};

use journal_text::cut_line;

/// The texts before and after the first line that is exactly `%%` and ends in a newline, if there is such a line.
pub fn parts_of(text: &[u8]) -> Option<(&[u8], &[u8])>
    ensures { option_map (λ parts. (parts.0.now, parts.1.now)) result ≡ parts_of text.now }
{
    let mut rest = text;
    while let Some((line, after)) = cut_line(rest) {
        if line == b"%%".as_slice() {
            return Some((&text[..text.len() - rest.len()], after));
        }
        rest = after;
    }
    None
}

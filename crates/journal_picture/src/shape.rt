//! What a picture shows of a program's sites.
ghost use Rattle.std.specs.Prelude.{◌≡◌, ◌≤◌, IfOk, length, string_bytes};
ghost use Rattle.std.specs.List.{list_all};
ghost use Rattle.journal_picture.specs.Kinds.{is_letter, kind_named, kind_of, kind_text};

use std::alloc::{AllocError, Global};

/// The name of a scheduler's kind: at most 15 letters of ASCII, digits and `_`, so that a picture can write it as it is.
#[derive(Clone, Copy, Debug, PartialEq, Eq)]
pub struct Kind {
    // The name, with zeros behind it.
    letters: [u8; 15],
}

impl Kind {
    /// A pool, which runs the pieces of a `par`.
    pub const POOL: Kind = Kind {
        letters: *b"pool\0\0\0\0\0\0\0\0\0\0\0",
    };

    /// A team, which runs the pieces of a `team` phase by phase.
    pub const TEAM: Kind = Kind {
        letters: *b"team\0\0\0\0\0\0\0\0\0\0\0",
    };

    /// A pipe, which runs a piece of a `team` once the pieces that it needs are done.
    pub const PIPE: Kind = Kind {
        letters: *b"pipe\0\0\0\0\0\0\0\0\0\0\0",
    };

    /// The kind with this name, or `None` if the text is longer than 15 bytes or has other bytes than letters of ASCII, digits
    /// and `_`.
    pub fn named(name: &str) -> Option<Kind>
        ensures { result ≡ kind_named name.now }
    {
        let bytes = name.as_bytes();
        if bytes.len() > 15 || !are_letters(bytes) {
            return None;
        }
        Some(kind_of(bytes))
    }
}

// Whether a name can have all these bytes.
fn are_letters(bytes: &[u8]) -> bool
    ensures { result ≡ list_all is_letter bytes.now }
{
    for byte in bytes {
        if !is_letter(*byte) {
            return false;
        }
    }
    true
}

// Whether a name can have this byte.
fn is_letter(byte: u8) -> bool
    ensures { result ≡ is_letter byte }
{
    (48 <= byte && byte <= 57)
        || (65 <= byte && byte <= 90)
        || byte == 95
        || (97 <= byte && byte <= 122)
}

// The kind with these letters.
fn kind_of(bytes: &[u8]) -> Kind
    requires { length bytes.now ≤ 15 }
    ensures { result ≡ kind_of bytes.now }
{
    let mut letters = [0u8; 15];
    for i in 0..bytes.len() {
        letters[i] = bytes[i];
    }
    Kind { letters }
}

/// The name of a kind.
pub(crate) fn kind_name(alloc: Global, kind: Kind) -> Result<String, AllocError>
    ensures { IfOk result (λ name. string_bytes name ≡ kind_text kind) }
{
    let mut name = String::new(alloc);
    for i in 0..15usize {
        if !is_letter(kind.letters[i]) {
            return Ok(name);
        }
        name.push(kind.letters[i] as char)?;
    }
    Ok(name)
}

/// What a picture shows of a site.
#[derive(Clone, Copy, Debug, PartialEq, Eq)]
pub struct Shape {
    /// The kind of its scheduler.
    pub kind: Kind,
    /// Whether its pieces go through phases, as those of a team and of a pipe. Its outline is dashed then.
    pub phased: bool,
    /// The line of its construct in the program.
    pub line: u32,
}

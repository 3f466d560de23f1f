//! The words of the command line.
ghost use Rattle.std.specs.Prelude.{◌≡◌, drop};

use std::alloc::AllocFailed;
use std::env;
use std::io::{Error, ErrorKind};
use std::rt::Env;

/// Why the words can't be read.
#[derive(Clone, Copy, Debug, PartialEq, Eq, Drop)]
pub enum NoWords {
    /// A word isn't UTF-8, so the words are no form.
    NotText,
    /// An allocation failed.
    NoMemory,
}

impl From<Error> for NoWords {
    ghost use Rattle.std.specs.Prelude.{◌≡◌, ◌↔◌};
    ghost use Rattle.std.specs.IoError.{error_kind};
    ghost use Rattle.std.specs.declared.io.ErrorKind.TheVariants.{OutOfMemory};
    ghost use Rattle.outside_io.specs.declared.words.NoWords.TheVariants.{NoMemory};

    ghost from_gives = { λ error why. (why ≡ NoMemory) ↔ (error_kind error ≡ OutOfMemory) };

    fn from(error: Error) -> NoWords {
        if error.kind() == ErrorKind::OutOfMemory {
            NoWords::NoMemory
        } else {
            NoWords::NotText
        }
    }
}

impl<T: Drop> From<AllocFailed<T>> for NoWords {
    ghost use Rattle.std.specs.Prelude.{◌≡◌};
    ghost use Rattle.outside_io.specs.declared.words.NoWords.TheVariants.{NoMemory};

    ghost from_gives = { λ _ why. why ≡ NoMemory };

    fn from(_: AllocFailed<T>) -> NoWords {
        NoWords::NoMemory
    }
}

/// The words of the command line, without the program's name.
///
/// # Errors
///
/// `NoWords::NoMemory` if an allocation fails. `NoWords::NotText` if a word isn't UTF-8.
///
/// # Memory
///
/// It allocates the words.
pub fn words_of<R: Env + AllocGlobal>(rt: &R) -> Result<Vec<String>, NoWords> {
    let mut words = Vec::new(rt.alloc());
    for word in env::args(rt)? {
        words.push(word)?;
    }
    Ok(without_name(words))
}

// All words but the first, which is the program's name, in their order.
fn without_name(words: Vec<String>) -> Vec<String>
    ensures rest { result.items ≡ drop 1 words.items }
{
    let mut words = words;
    if !words.is_empty() {
        let _ = words.remove(0);
    }
    words
}

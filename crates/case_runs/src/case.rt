//! The form of a file of cases.
//!
//! A case begins with a line `case NAME`. Lines before the first case belong to each case of the file. A line is a word and
//! what belongs to it. An empty line, or one with the word `#`, says nothing.
//!
//! | line | meaning |
//! |---|---|
//! | `words W..` | words of the call, without a blank in one of them |
//! | `word W` | one word of the call, which may be empty |
//! | `draw W..` | as `words`, and the call draws a picture |
//! | `status N` | the exit status of the call |
//! | `< TEXT` | a line of its input |
//! | `> TEXT` | a line that it writes |
//! | `! TEXT` | a line that it reports |
//! | `<- TEXT`, `>- TEXT`, `!- TEXT` | the same without an end of line |
//! | `<< FILE`, `>> FILE`, `!! FILE` | the bytes of a file |
//! | `spaces N`, `byte N` | so many blanks of its input, and a byte with this number |
//! | `begins` | the call may write more than these lines |
//! | `source MOST CALL` | the call reads at most so many bytes at a time, and the read with this number, from 1 on, fails |
//! | `out ROOM MOST CALL` | the same of what it writes, with so much room in all |
//! | `err ROOM MOST CALL` | the same of what it reports |
//! | `cut N M`, `cut_err N M` | it writes, or reports, only the first N times M bytes of the lines |
//! | `each FROM TO` | the call is made for each of these numbers: `#` in place of a number stands for it, `+` for the next |
use crate::number::{Number, numbers_of};
use std::alloc::{AllocError, Global};
use std::ops::RangeInclusive;

/// A case.
#[derive(Drop)]
pub struct Case {
    pub name: String,
    pub words: Vec<String>,
    pub is_picture: bool,
    pub input: Vec<u8>,
    pub out: Vec<u8>,
    pub err: Vec<u8>,
    pub status: u8,
    pub each: [Number; 3],
    pub source: [Number; 3],
    pub out_flow: [Number; 3],
    pub err_flow: [Number; 3],
    pub cut: Option<[Number; 3]>,
    pub cut_err: Option<[Number; 3]>,
    pub begins: bool,
    /// Whether all its lines have a known word.
    pub is_known: bool,
}

// Room for all that a case writes, in calls of this size, with no call that fails.
const OPEN: [Number; 3] = [Number::Is(65_536), Number::Is(4096), Number::Is(0)];

impl Case {
    /// A case of no line.
    pub fn new(alloc: Global, name: &str) -> Result<Case, AllocError> {
        Ok(Case {
            name: String::from_str(alloc, name)?,
            words: Vec::new(alloc),
            is_picture: false,
            input: Vec::new(alloc),
            out: Vec::new(alloc),
            err: Vec::new(alloc),
            status: 0,
            each: [Number::Is(0); 3],
            source: [Number::Is(4096), Number::Is(0), Number::Is(0)],
            out_flow: OPEN,
            err_flow: OPEN,
            cut: None,
            cut_err: None,
            begins: false,
            is_known: true,
        })
    }

    /// Adds a line that names no file.
    pub fn add(&mut self, alloc: Global, word: &str, rest: &str) -> Result<(), AllocError> {
        match word {
            "words" => self.add_words(alloc, rest),
            "word" => {
                self.words.push(String::from_str(alloc, rest)?)?;
                Ok(())
            }
            "draw" => {
                self.is_picture = true;
                self.add_words(alloc, rest)
            }
            "<" => add_line(&mut self.input, rest),
            "<-" => self.input.extend_from_slice(rest.as_bytes()),
            ">" => add_line(&mut self.out, rest),
            ">-" => self.out.extend_from_slice(rest.as_bytes()),
            "!" => add_line(&mut self.err, rest),
            "!-" => self.err.extend_from_slice(rest.as_bytes()),
            "spaces" => add_spaces(&mut self.input, rest),
            "byte" => {
                self.input.push(rest.parse().unwrap_or(0))?;
                Ok(())
            }
            _ => {
                self.set(word, rest);
                Ok(())
            }
        }
    }

    fn add_words(&mut self, alloc: Global, rest: &str) -> Result<(), AllocError> {
        for word in rest.split_whitespace() {
            self.words.push(String::from_str(alloc, word)?)?;
        }
        Ok(())
    }

    // Sets a number.
    fn set(&mut self, word: &str, rest: &str) {
        match word {
            "" | "#" => {}
            "status" => self.status = rest.parse().unwrap_or(255),
            "each" => self.each = numbers_of(rest),
            "source" => self.source = numbers_of(rest),
            "out" => self.out_flow = numbers_of(rest),
            "err" => self.err_flow = numbers_of(rest),
            "cut" => self.cut = Some(numbers_of(rest)),
            "cut_err" => self.cut_err = Some(numbers_of(rest)),
            "begins" => self.begins = true,
            _ => self.is_known = false,
        }
    }

    /// The bytes of the stream to which a file's bytes are added by a line with this word.
    pub fn stream(&mut self, word: &str) -> Option<&mut Vec<u8>> {
        match word {
            "<<" => Some(&mut self.input),
            ">>" => Some(&mut self.out),
            "!!" => Some(&mut self.err),
            _ => None,
        }
    }

    /// The numbers for which the call is made.
    pub fn numbers(&self) -> RangeInclusive<u32> {
        self.each[0].at(0)..=self.each[1].at(0)
    }

    /// Whether the call writes this at this number.
    pub fn writes(&self, number: u32, out: &[u8]) -> bool {
        let expected = first_of(&self.out, self.cut, number);
        out == expected || self.begins && out.starts_with(expected)
    }

    /// Whether the call reports this at this number.
    pub fn reports(&self, number: u32, err: &[u8]) -> bool {
        err == first_of(&self.err, self.cut_err, number)
    }
}

// The bytes up to a cut, if there is one.
fn first_of(all: &[u8], cut: Option<[Number; 3]>, number: u32) -> &[u8] {
    let Some(cut) = cut else {
        return all;
    };
    let count = cut[0].at(number).saturating_mul(cut[1].at(number)) as usize;
    all.get(..count).unwrap_or(all)
}

// Adds a line and its end.
fn add_line(to: &mut Vec<u8>, line: &str) -> Result<(), AllocError> {
    to.extend_from_slice(line.as_bytes())?;
    to.push(b'\n')?;
    Ok(())
}

// Adds so many blanks.
fn add_spaces(to: &mut Vec<u8>, count: &str) -> Result<(), AllocError> {
    let count: usize = count.parse().unwrap_or(0);
    for _ in 0..count {
        to.push(b' ')?;
    }
    Ok(())
}

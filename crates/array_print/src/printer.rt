//! A text that grows.

ghost use Rattle.std.specs.Prelude.{◌≡◌, ◌++◌, [], OnOk, IfOk};
ghost use Rattle.std.specs.Fmt.{signed_decimal};
ghost use Rattle.array_print.specs.Texts.{wider};
ghost use Rattle.array_print.specs.Printers.{Adds};

use std::alloc::{AllocError, Global};
use std::mem;

/// The text of a program so far, and the margin of the lines of the current block.
#[derive(Drop)]
pub(crate) struct Printer {
    pub alloc: Global,
    pub text: Vec<u8>,
    pub margin: Vec<u8>,
}

impl Printer {
    /// No text, and no margin.
    pub(crate) fn new(alloc: Global) -> Printer
        ensures text { result.text.items ≡ [] }
        ensures margin { result.margin.items ≡ [] }
    {
        Printer {
            alloc,
            text: Vec::new(alloc),
            margin: Vec::new(alloc),
        }
    }

    /// Adds these bytes.
    pub(crate) fn add(&mut self, bytes: &[u8]) -> Result<(), AllocError>
        ensures { OnOk result (Adds self.old bytes.now self.new) }
    {
        self.text.extend_from_slice(bytes)
    }

    /// Begins a line: adds the margin and these bytes.
    pub(crate) fn begin(&mut self, bytes: &[u8]) -> Result<(), AllocError>
        ensures { OnOk result (Adds self.old (self.old.margin.items ++ bytes.now) self.new) }
    {
        self.text.extend_from_slice(&self.margin)?;
        self.text.extend_from_slice(bytes)
    }

    /// Adds a number in decimal.
    pub(crate) fn number(&mut self, value: i64) -> Result<(), AllocError>
        ensures { OnOk result (Adds self.old (signed_decimal value) self.new) }
    {
        let digits = value.to_string(self.alloc)?;
        self.text.extend_from_slice(digits.as_bytes())
    }

    /// Widens the margin for the lines inside a block, and returns the margin outside. Why a margin of its own for each block:
    /// one small allocation, which needs no bound on depth.
    pub(crate) fn widen(&mut self) -> Result<Vec<u8>, AllocError>
        ensures outer { IfOk result (λ outer. outer.items ≡ self.old.margin.items) }
        ensures inner { OnOk result (self.new.margin.items ≡ wider self.old.margin.items) }
        ensures text { OnOk result (self.new.text.items ≡ self.old.text.items) }
    {
        let mut inner = self.margin.to_vec(self.alloc)?;
        inner.extend_from_slice(b"  ".as_slice())?;
        Ok(mem::replace(&mut self.margin, inner))
    }
}

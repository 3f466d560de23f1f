//! Why a text can't be cut into tokens.

/// The first error of cutting a text. Positions are bytes, counted from 0.
#[derive(Clone, Copy, PartialEq, Eq, Debug, Drop)]
pub enum TokenFault {
    /// The first byte of 128 or more, anywhere in the text.
    NotAscii { at: u32 },
    /// The first position where no token begins.
    BadToken { at: u32 },
    /// The first digit of a number above 9223372036854775807.
    NumberTooLarge { at: u32 },
    /// An allocation failed.
    Memory,
}

//! The numbers of a journal's text.
ghost use Rattle.std.specs.Prelude.{◌≡◌};
ghost use Rattle.journal_text.specs.Reading.{number_up_to, spells};

/// The number that the word spells in decimal without leading zeros, if it is at most `most`; else `None`.
pub fn number_up_to(word: &[u8], most: u32) -> Option<u32>
    ensures { result ≡ number_up_to most word.now }
{
    if word.is_empty() {
        return None;
    }
    if word[0] == b'0' && word.len() != 1 {
        return None;
    }
    let mut number = 0u64;
    for &byte in word {
        if !byte.is_ascii_digit() {
            return None;
        }
        number = number * 10 + u64::from(byte - b'0');
        if number > u64::from(most) {
            return None;
        }
    }
    Some(number as u32)
}

/// Whether the word spells this number.
pub fn spells(word: &[u8], number: u32) -> bool
    ensures { result ≡ spells number word.now }
{
    match number_up_to(word, number) {
        Some(found) => found == number,
        None => false,
    }
}

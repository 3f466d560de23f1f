//! Numbers of a case.

/// A number, or what stands for the numbers of a case that is run for several.
#[derive(Clone, Copy)]
pub enum Number {
    Is(u32),
    /// `#`, the number itself.
    This,
    /// `+`, the number after it.
    Next,
}

impl Number {
    /// The number that a word spells; 0 for a word that spells none.
    pub fn read(word: &str) -> Number {
        match word {
            "#" => Number::This,
            "+" => Number::Next,
            _ => Number::Is(word.parse().unwrap_or(0)),
        }
    }

    /// Its value at this number.
    pub fn at(self, number: u32) -> u32 {
        match self {
            Number::Is(is) => is,
            Number::This => number,
            Number::Next => number.saturating_add(1),
        }
    }
}

/// The numbers of a line, at most three; the others are 0.
pub fn numbers_of(line: &str) -> [Number; 3] {
    let mut all = [Number::Is(0); 3];
    for (word, one) in line.split_whitespace().zip(all.iter_mut()) {
        *one = Number::read(word);
    }
    all
}

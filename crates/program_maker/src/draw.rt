//! Pseudorandom numbers from a seed.
ghost use Rattle.std.specs.Prelude.{◌≡◌};
ghost use Rattle.program_maker.specs.Made.{state_after, drawn};

// A linear congruential generator modulo 2^64: a draw multiplies the state by the first constant and adds the second.
const FACTOR: u64 = 6364136223846793005;

const STEP: u64 = 1442695040888963407;

/// A generator of numbers from 0 to 15.
#[derive(Debug, Drop)]
pub struct Draws {
    pub state: u64,
}

impl Draws {
    /// The next number.
    pub fn draw(&mut self) -> u8
        ensures state { self.new.state ≡ state_after self.old.state }
        ensures number { result ≡ drawn self.new.state }
    {
        let next = u128::from(self.state) * u128::from(FACTOR) + u128::from(STEP);
        self.state = (next % 18446744073709551616) as u64;
        (self.state / 1152921504606846976) as u8
    }
}

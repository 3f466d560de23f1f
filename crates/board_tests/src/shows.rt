//! Tables that show their words.
ghost use Rattle.std.specs.Prelude.{◌<◌};
ghost use Rattle.board_rule.specs.Encodings.{width};

use board_rule::Laid;
use hart_port::Ledger;
use lent_board::Board;
use std::sync::{Mutex, Wait};

/// A table that shows its words to a hart with a hold of type `H`.
pub(crate) trait Shows<H> {
    /// The first word and that of site 1.
    fn words(&self, hold: H) -> (u64, u64);
}

/// A board with a site.
#[derive(Drop)]
pub(crate) struct Shown<'a, L: Laid> {
    pub board: &'a Board<L>,
    pub ghost wide: { 1 < width board.now.plan },
}

impl<'a, L: Laid> Shows<()> for Shown<'a, L> {
    fn words(&self, _hold: ()) -> (u64, u64) {
        (self.board.peek(0), self.board.peek(1))
    }
}

impl<'a, R: Wait> Shows<&'a R> for Mutex<Ledger> {
    fn words(&self, hold: &'a R) -> (u64, u64) {
        let ledger = self.lock(hold);
        (ledger.board_word(), ledger.site_word(1))
    }
}

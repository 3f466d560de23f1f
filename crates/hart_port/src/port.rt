//! What one hart may do at the table.
ghost use Rattle.std.specs.Prelude.{◌≡◌, ◌<◌, ℕ, Bool, Result, true, false};
ghost use Rattle.transfer_table.specs.Plan.{IsSite, parent};
ghost use Rattle.hart_port.specs.declared.port.Taken.{Taken};
ghost use Rattle.hart_port.specs.declared.port.Entered.{Entered};
ghost use Rattle.hart_port.specs.declared.port.Seen.{Seen};
ghost use Rattle.hart_port.specs.Count.{RoseIfErr, RoseUnlessInside};
ghost use Rattle.hart_port.specs.PortView.{PortView, IsPortView, is_in, Registers, Skips, HasEnded, MayRequest, requested_by, Enters, yielded, closes, sees_gone, Sees, MayUnregister, unregistered};

/// The site was claimed before the call. `shown` is the site word that the call read.
#[derive(Clone, Copy, Debug, PartialEq, Eq)]
pub struct Taken {
    pub shown: u64,
}

/// The result of a try to enter a site.
#[derive(Clone, Copy, Debug, PartialEq, Eq)]
pub enum Entered {
    /// The hart is in the site.
    Inside,
    /// The site word that the call read, `shown`, is unclaimed, closing, closed or wants no hart.
    NotWanted { shown: u64 },
    /// The word that the call read wants a hart, but the exchange found another word.
    Moved { read: u64, found: u64 },
}

/// The result of a look at the owner.
#[derive(Clone, Copy, Debug, PartialEq, Eq)]
pub enum Seen {
    /// No other hart is in the site or on its way in.
    Empty,
    /// The site word that the call read, `shown`, has a hart on its way in.
    Flying { shown: u64 },
    /// The board word that the call read, `shown`, has another hart in the site.
    Held { shown: u64 },
}

/// One hart's right to make transfers. No call allocates. The clause `kept` of each call says that the hart still fits its
/// plan.
pub trait Port {
    /// What a call needs of the runtime.
    type Hold: Copy;

    /// The plan, the hart and its owner, the entries that it made, its sets of sites, and whether it is alone at the table.
    ghost seen: { Self → PortView };

    /// The number of refused calls, up to the last value of `u64`. Why: it isn't part of the view, since a refusal raises the
    /// count and leaves the view unchanged.
    ghost refused: { Self → ℕ };

    /// Relates the port, the site of a register, its result, and the port afterwards by the words that the port read. So a call
    /// over the port notes the words that the port read, and no others. This member and the next four are exact for a port with
    /// one owner; for lock-protected state they state nothing.
    ghost register_gives: { Self → ℕ → Result (Unit {0}) Taken → Self → Type 0 };

    /// The relation of `register_gives` for a skip.
    ghost skip_gives: { Self → ℕ → Result (Unit {0}) Taken → Self → Type 0 };

    /// The relation of `register_gives` for a try to enter.
    ghost enter_gives: { Self → ℕ → Entered → Self → Type 0 };

    /// The relation of `register_gives` for a check that a site is gone.
    ghost gone_gives: { Self → ℕ → Bool → Self → Type 0 };

    /// The relation of `register_gives` for a check that the owner is empty.
    ghost empty_gives: { Self → Seen → Self → Type 0 };

    /// The hart's number.
    fn hart(&self) -> u8
        ensures same { result ≡ (seen self.now).hart }
        ensures kept { IsPortView (seen self.now) };

    /// The site that holds the hart; 0 is the base.
    fn owner(&self) -> u16
        ensures same { result ≡ (seen self.now).owner }
        ensures kept { IsPortView (seen self.now) };

    /// Makes Register of the site, a child of the owner. The hart is then the site's home.
    ///
    /// # Errors
    ///
    /// `Taken` if the site was claimed before. The view is then unchanged.
    fn register(&mut self, hold: Self::Hold, site: u16) -> Result<(), Taken>
        requires known { IsSite (seen self.old).plan site }
        requires child { (seen self.old).owner ≡ parent (seen self.old).plan site }
        ensures does { Registers (seen self.old) site result (seen self.new) }
        ensures gives { register_gives self.old site result self.new }
        ensures count { RoseIfErr result (refused self.old) (refused self.new) }
        ensures kept { IsPortView (seen self.new) };

    /// Makes Skip of the site, a child of the owner. The hart stays in the owner.
    ///
    /// # Errors
    ///
    /// `Taken` if the site was claimed before. The view is then unchanged.
    fn skip(&mut self, hold: Self::Hold, site: u16) -> Result<(), Taken>
        requires known { IsSite (seen self.old).plan site }
        requires child { (seen self.old).owner ≡ parent (seen self.old).plan site }
        ensures does { Skips (seen self.old) site result (seen self.new) }
        ensures gives { skip_gives self.old site result self.new }
        ensures count { RoseIfErr result (refused self.old) (refused self.new) }
        ensures kept { IsPortView (seen self.new) };

    /// Makes Request of the site that the hart is in and the home of, for `count` more harts.
    fn request(&mut self, hold: Self::Hold, site: u16, count: u8)
        requires known { IsSite (seen self.old).plan site }
        requires may { MayRequest (seen self.old) site count }
        ensures does { seen self.new ≡ requested_by (seen self.old) site count }
        ensures count { refused self.new ≡ refused self.old }
        ensures kept { IsPortView (seen self.new) };

    /// Tries to make Enter of the site, a child of the owner.
    fn try_enter(&mut self, hold: Self::Hold, site: u16) -> Entered
        requires known { IsSite (seen self.old).plan site }
        requires child { (seen self.old).owner ≡ parent (seen self.old).plan site }
        ensures does { Enters (seen self.old) site result (seen self.new) }
        ensures gives { enter_gives self.old site result self.new }
        ensures count { RoseUnlessInside result (refused self.old) (refused self.new) }
        ensures kept { IsPortView (seen self.new) };

    /// Makes Yield of the owner, whose home the hart isn't.
    fn yield_hart(&mut self, hold: Self::Hold)
        requires inside { 0 < (seen self.old).owner }
        requires guest { is_in (seen self.old).homes (seen self.old).owner ≡ false }
        ensures does { seen self.new ≡ yielded (seen self.old) }
        ensures count { refused self.new ≡ refused self.old }
        ensures kept { IsPortView (seen self.new) };

    /// Closes the owner, whose home the hart is: no further hart is let in.
    fn close_site(&mut self, hold: Self::Hold)
        requires home { is_in (seen self.old).homes (seen self.old).owner ≡ true }
        requires open_yet { is_in (seen self.old).closed (seen self.old).owner ≡ false }
        ensures does { seen self.new ≡ closes (seen self.old) }
        ensures count { refused self.new ≡ refused self.old }
        ensures kept { IsPortView (seen self.new) };

    /// Returns true exactly if the site word that the call read is closed, so that the site is gone. A hart that is alone at
    /// the table sees each site gone that it unregistered or skipped.
    fn see_gone(&mut self, hold: Self::Hold, site: u16) -> bool
        requires { IsSite (seen self.old).plan site }
        ensures gone { result ≡ true → seen self.new ≡ sees_gone (seen self.old) site }
        ensures not_yet { result ≡ false → seen self.new ≡ seen self.old }
        ensures alone { (seen self.old).alone ≡ true → HasEnded (seen self.old) site
            → result ≡ true }
        ensures gives { gone_gives self.old site result self.new }
        ensures count { refused self.new ≡ refused self.old }
        ensures kept { IsPortView (seen self.new) };

    /// Checks for another hart in the owner, which the hart has closed, or on its way in.
    fn see_empty(&mut self, hold: Self::Hold) -> Seen
        requires home { is_in (seen self.old).homes (seen self.old).owner ≡ true }
        requires closed { is_in (seen self.old).closed (seen self.old).owner ≡ true }
        ensures does { Sees (seen self.old) result (seen self.new) }
        ensures gives { empty_gives self.old result self.new }
        ensures count { refused self.new ≡ refused self.old }
        ensures kept { IsPortView (seen self.new) };

    /// Makes Unregister of the owner, which the hart has closed and has seen empty since it last
    /// saw a child gone. It has seen every child gone.
    fn unregister(&mut self, hold: Self::Hold)
        requires { MayUnregister (seen self.old) }
        ensures does { seen self.new ≡ unregistered (seen self.old) }
        ensures count { refused self.new ≡ refused self.old }
        ensures kept { IsPortView (seen self.new) };
}

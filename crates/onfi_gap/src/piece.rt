ghost use Rattle.std.specs.Prelude.{◌≡◌};
ghost use Rattle.onfi_gap.specs.Pieces.{gap_of};

/// A piece of a log: up to eight requests, of groups that began one after another. Times are ns of the channel's clock.
#[derive(Clone, Copy, Debug, PartialEq, Eq)]
pub struct Piece {
    /// The line of its first command, counted from 1.
    pub line: u64,
    /// How many requests it has, 1 to 8.
    pub requests: u64,
    /// From when on the bus is free, right before its first command.
    pub begin: u64,
    /// When the log ended the last of its own requests.
    pub end: u64,
    /// When the plan ends that was found for it.
    pub best: u64,
    /// No legal schedule of it ends before this. Where it is `best`, none ends before the plan.
    pub below: u64,
}

impl Piece {
    /// How much later than the plan the log ended it, in ns; 0 where the plan, whose search met its limit, ends no sooner.
    pub fn gap(&self) -> u64
        ensures { result ≡ gap_of self.now }
    {
        self.end.saturating_sub(self.best)
    }
}

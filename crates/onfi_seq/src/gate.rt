ghost use Rattle.std.specs.Prelude.{ℕ};

/// What is called before each turn of a sequencer: a place where a caller holds a channel until something else happened.
pub trait Gate {
    /// What a call leaves of a gate: the gate before it, the channel, the turn's number, and the gate after it. Where an
    /// implementor says nothing, anything.
    ghost told: { Self → ℕ → ℕ → Self → Type 0 } = { λ _ _ _ _. Unit {0} };

    /// Turn number `turn` of that channel is about to begin; turns are numbered from 0, on through draining.
    fn before(&mut self, channel: u8, turn: u64)
        ensures { told self.old channel turn self.new };
}

//! What hosts see of the channels of a run.
ghost use Rattle.std.specs.Prelude.{◌≡◌};

/// All channels of a run as its hosts see them.
pub(crate) trait Channels {
    ghost use Rattle.std.specs.Prelude.{Bool, List, ℕ};
    ghost use Rattle.onfi_run.specs.declared.channel_end.ChannelEnd.{ChannelEnd};
    ghost use Rattle.onfi_run.specs.Keys.{ChannelQueues};

    /// The queues whose ends they hold, where they hold any, and how their threads ended.
    ghost queues: { Self → List (ChannelQueues × ChannelEnd) };

    /// Whether that channel makes no more turns, or that nothing is promised of it.
    ghost ended: { Self → ℕ → Bool → Type 0 };

    /// A request came to that channel.
    ghost woken: { Self → ℕ → Self → Type 0 };

    /// Whether a channel makes no more turns.
    fn has_ended(&self, channel: usize) -> bool
        ensures { ended self.now channel result };

    /// A request came to a channel.
    fn wake(&mut self, channel: usize)
        ensures woken { woken self.old channel self.new }
        ensures same { queues self.new ≡ queues self.old };
}

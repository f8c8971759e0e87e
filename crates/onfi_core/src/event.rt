ghost use Rattle.std.specs.Prelude.{◌≡◌};
ghost use Rattle.onfi_core.specs.Core.{channel_of, request_in};

use onfi_request::Request;

/// One atomic step of a core. Channels and hosts are numbered from 0.
#[derive(Debug, Drop)]
pub enum Event {
    /// A host pushes a request into a channel's submission queue.
    Submit {
        host: u8,
        channel: u8,
        request: Request,
    },
    /// The channel's sequencer pops the front of its submission queue.
    Accept {
        channel: u8,
    },
    /// The channel's sequencer plans: the wants not started, and the first items that no plan has taken.
    Plan {
        channel: u8,
    },
    /// The undone phase of least start happens on the channel's bus.
    Bus {
        channel: u8,
    },
    /// The channel's sequencer pushes the oldest reply held for the host into the host's completion queue.
    Post {
        channel: u8,
        host: u8,
    },
    /// The host pops the front of its completion queue of the channel.
    Collect {
        channel: u8,
        host: u8,
    },
    /// The channel's bus was idle until this moment, in ns of its clock: no phase starts sooner, and what is left of the
    /// plan starts later where it would. The next planning plans it anew. A moment that has passed changes nothing.
    Wait {
        channel: u8,
        moment: u64,
    },
    /// The array of this LUN may be done: its group's next phase is the first post. The chip is asked whether the LUN is
    /// ready as the bus is free; where it says so the post may start then, and the next planning plans anew. So a caller
    /// that says this of a LUN that works still changes nothing. A chip that says yes too early is one that breaks its
    /// contract: the post that comes then finds the LUN busy, and a status stops the channel.
    Ready {
        channel: u8,
        lun: u8,
    },
}

impl Event {
    /// The channel that it changes.
    pub(crate) fn channel(&self) -> u8
        ensures { result ≡ channel_of self.now }
    {
        match self {
            Event::Submit { channel, .. }
            | Event::Accept { channel }
            | Event::Plan { channel }
            | Event::Bus { channel }
            | Event::Post { channel, .. }
            | Event::Collect { channel, .. }
            | Event::Wait { channel, .. }
            | Event::Ready { channel, .. } => *channel,
        }
    }

    /// The request that it hands back where it is refused.
    pub(crate) fn into_request(self) -> Option<Request>
        ensures { result ≡ request_in self }
    {
        match self {
            Event::Submit { request, .. } => Some(request),
            _ => None,
        }
    }
}

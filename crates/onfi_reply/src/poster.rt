ghost use Rattle.std.specs.Prelude.{◌≡◌, IfErr, OnOk, OnErr};
ghost use Rattle.onfi_reply.specs.Ends.{after_posting, SawFull, Settled, SeatSettled};
ghost use Rattle.onfi_reply.specs.Replies.{IsNext};

use crate::inbox::Inbox;
use crate::inbox_seat::InboxSeat;
use crate::poster_seat::PosterSeat;
use onfi_request::Reply;
use std::marker::Model;
use std::sync::Wait;

/// The sequencer's end of a completion queue. It may be used from any one thread at a time.
///
/// Contracts see its queue, the queue's capacity and what that was opened for, and all replies that were posted.
#[derive(Drop)]
pub struct Poster {
    pub(crate) seat: PosterSeat,
}

impl Model for Poster {
    ghost use Rattle.std.specs.Prelude.{◌≡◌, true, None};
    ghost use Rattle.onfi_reply.specs.Ends.{PosterView};

    ghost Value = { PosterView };

    ghost view = { λ t. record {
      queue = t.seat.queue;
      capacity = t.seat.capacity;
      opened = t.seat.opened;
      posted = t.seat.posted;
    } };

    ghost invariant = { λ t. (t.seat.made ≡ true) × (t.seat.back ≡ None) };
}

impl Poster {
    /// Posts a reply after all that waits in the queue. It takes no memory.
    ///
    /// The reply is of the queue's host, and all replies that were posted here, and then this one, are rightful in what
    /// this one rests on.
    ///
    /// # Errors
    /// The reply comes back, and nothing is posted, where the queue was full. Of that the contract says only that a full
    /// queue goes with what was posted, as it may once that many were: that a reply goes out where there is room is tested.
    pub fn post<R: Wait>(&mut self, rt: &R, reply: Reply) -> Result<(), Reply>
        requires { IsNext self.old.opened self.old.posted reply }
        ensures posted { OnOk result (self.new ≡ after_posting self.old reply) }
        ensures returned { IfErr result (λ back. back ≡ reply) }
        ensures same { OnErr result (self.new ≡ self.old) }
        ensures full { OnErr result (SawFull self.old) }
    {
        self.seat.post(rt, reply)
    }

    /// Takes the inbox of this queue back. It takes no memory, and what still waits is dropped.
    ///
    /// What the inbox popped, and then what waits in the queue, is what was posted.
    pub fn close(self, inbox: Inbox)
        requires { inbox.queue ≡ self.queue }
        ensures { Settled self inbox }
    {
        let _settled = settle(self.seat, inbox.into_seat());
    }
}

/// The seat with the inbox taken back.
fn settle(mut seat: PosterSeat, inbox: InboxSeat) -> PosterSeat
    requires { inbox.queue ≡ seat.queue }
    ensures { SeatSettled seat.posted inbox.popped }
{
    seat.take_back(inbox);
    seat
}

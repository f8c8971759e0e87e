ghost use Rattle.std.specs.Prelude.{◌≡◌, ◌++◌, [], IfSome, IfNone, IfOk, OnErr};
ghost use Rattle.onfi_reply.specs.Ends.{after_collecting, after_refusing, IsFirstOf, SawEmpty, TookIn};
ghost use Rattle.onfi_reply.specs.Replies.{IsNext};

use crate::inbox_seat::InboxSeat;
use onfi_die::Total;
use onfi_request::Reply;
use std::alloc::{AllocError, Global};
use std::collections::VecDeque;
use std::marker::Model;
use std::sync::Wait;

/// A host's end of a completion queue, with a list of its own for replies that are taken in before they are collected.
/// It may be used from any one thread at a time.
///
/// Contracts see its queue, the queue's capacity and what that was opened for, all replies that it gave, those that it took
/// in and will give next, and how often a taking in was refused memory.
#[derive(Drop)]
pub struct Inbox {
    pub(crate) seat: InboxSeat,
    pub(crate) waiting: VecDeque<Reply>,
    // How often a taking in was refused memory, for contracts alone.
    pub(crate) refusals: Total,
}

impl Model for Inbox {
    ghost use Rattle.onfi_reply.specs.Ends.{InboxView, given_of, IsWhole};

    ghost Value = { InboxView };

    ghost view = { λ t. record {
      queue = t.seat.queue;
      capacity = t.seat.capacity;
      opened = t.seat.opened;
      given = given_of t.seat.popped t.waiting.items;
      waiting = t.waiting.items;
      refused = t.refusals.count;
    } };

    ghost invariant = { λ t. IsWhole t.seat t.waiting.items };
}

impl Inbox {
    /// Gives the next reply: the first of those that were taken in or, where there is none, the one that has waited
    /// longest in the queue. It takes no memory.
    ///
    /// `None` comes only where nothing was taken in, and the queue was empty. Of the queue the contract says only that an
    /// empty one goes with what was given, as it always may: that a reply which waits there is collected is tested. All
    /// replies that were given, up to this one, are rightful in what this one rests on.
    pub fn collect<R: Wait>(&mut self, rt: &R) -> Option<Reply>
        ensures given { IfSome result (λ reply. self.new ≡ after_collecting self.old reply) }
        ensures first { IfSome result (λ reply. IsFirstOf self.old.waiting reply) }
        ensures rightful { IfSome result (λ reply. IsNext self.old.opened self.old.given reply) }

        ensures same { IfNone result (self.new ≡ self.old) }
        ensures none_waits { IfNone result (self.old.waiting ≡ []) }
        ensures empty { IfNone result (SawEmpty self.old) }
    {
        match self.waiting.pop_front() {
            Some(reply) => Some(reply),
            None => self.seat.pop(rt),
        }
    }

    /// Moves the reply that has waited longest in the queue into the inbox's own list, and answers whether it did.
    ///
    /// `false` comes where the queue was empty, of which the contract says what [`Inbox::collect`] has. All replies that were
    /// popped, up to this one, are rightful in what this one rests on.
    ///
    /// # Errors
    /// Where memory was refused; the reply is then still in the queue, and the refusal is counted, for contracts alone.
    pub fn take_in<R: Wait>(&mut self, rt: &R, _alloc: Global) -> Result<bool, AllocError>
        ensures took { IfOk result (λ moved. TookIn moved self.old self.new) }
        ensures refused { OnErr result (self.new ≡ after_refusing self.old) }
    {
        if let Err(refused) = self.waiting.reserve(1) {
            self.refusals = self.refusals.next();
            return Err(refused);
        }
        match self.seat.pop(rt) {
            Some(reply) => {
                self.waiting.push_back_reserved(reply);
                Ok(true)
            }
            None => Ok(false),
        }
    }

    /// The pass, with all that was popped.
    pub(crate) fn into_seat(self) -> InboxSeat
        ensures queue { result.queue ≡ self.queue }
        ensures popped { result.popped ≡ self.given ++ self.waiting }
    {
        self.seat
    }
}

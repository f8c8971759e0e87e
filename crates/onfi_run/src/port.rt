//! A host's ends on a channel.
ghost use Rattle.std.specs.Prelude.{◌≡◌, ◌++◌, [], ◌∷◌, List, IsTrue, false};
ghost use Rattle.onfi_request.specs.declared.request.Request.{Request as ARequest};
ghost use Rattle.onfi_run.specs.Keys.{port_key, port_state, Collects, LeavesOut, Submits};
ghost use Rattle.onfi_run.specs.Resting.{IsEmptied, IsFull};
ghost use Rattle.onfi_run.specs.Sending.{IsSending};

use crate::answers::Answers;
use onfi_queue::{Host, SubmitFault};
use onfi_reply::Inbox;
use onfi_request::Request;
use std::sync::Wait;

/// A host's ends on a channel, and what it got there.
#[derive(Drop)]
pub(crate) struct Port {
    pub(crate) host: Host,
    pub(crate) inbox: Inbox,
    pub(crate) answers: Answers,
    /// Whether an operation was left out; all later ones are too then, so that none takes the serial of another.
    pub(crate) left_out: bool,
}

impl Port {
    /// Collects the next reply at that moment, and answers whether there was one.
    pub(crate) fn collect<R: Wait>(&mut self, rt: &R, now: u64) -> bool
        ensures same { port_state self.new ≡ port_state self.old }
        ensures collected { Collects now result self.old self.new }
        ensures emptied { result ≡ false → IsEmptied self.old }
    {
        match self.inbox.collect(rt) {
            Some(reply) => {
                self.answers.keep(reply, now);
                true
            }
            None => false,
        }
    }

    /// Leaves an operation out.
    pub(crate) fn leave_out(&mut self)
        ensures same { port_key self.new ≡ port_key self.old }
        ensures nothing { LeavesOut self.old self.new }
        ensures left { (requests : List ARequest) (request : ARequest) → IsSending requests self.old → IsSending (requests ++ request ∷ []) self.new }
    {
        self.left_out = true;
    }

    /// Submits a request at that moment after all that were submitted, or leaves it out: where one was left out before, where
    /// the queue never takes it, or where it is full and the channel has ended. Whether either was done; else the queue is full.
    pub(crate) fn submit<R: Wait>(
        &mut self,
        rt: &R,
        now: u64,
        has_ended: bool,
        request: Request,
    ) -> bool
        ensures same { port_key self.new ≡ port_key self.old }
        ensures sent { IsTrue result → (requests : List ARequest) → IsSending requests self.old → IsSending (requests ++ request ∷ []) self.new }
        ensures submits { IsTrue result → Submits now request has_ended self.old self.new }
        ensures waits { result ≡ false → (self.new ≡ self.old) × IsFull self.old × (has_ended ≡ false) }
    {
        if self.left_out {
            return true;
        }
        match self.host.submit(rt, request) {
            Ok(serial) => {
                self.answers.send(serial, now);
                true
            }
            Err((SubmitFault::Full, _)) if has_ended => {
                self.leave_out();
                true
            }
            Err((SubmitFault::Full, _)) => false,
            Err(_) => {
                self.leave_out();
                true
            }
        }
    }
}

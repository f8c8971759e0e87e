ghost use Rattle.std.specs.Prelude.{◌≡◌, ◌<◌, ◌≤◌, ◌^◌, length, IfOk, IfErr, OnOk, OnErr, MatchOption};
ghost use Rattle.onfi_request.specs.Range.{Fits};
ghost use Rattle.onfi_queue.specs.Ends.{after_sending, IsWhyNot};

use crate::fault::SubmitFault;
use crate::opened::Opened;
use crate::rule::{Line, Sends};
use crate::view::View;
use crossbeam_queue::Pass;
use onfi_request::{Item, Request, check};
use std::alloc::Global;
use std::marker::Model;
use std::sync::{Arc, Wait};

/// A host's end of a channel's submission queue. It may be used from any one thread at a time.
///
/// Contracts see its queue, the queue's capacity and what that was opened with, the host's number and all items that it
/// sent.
#[derive(Drop)]
pub struct Host {
    pub(crate) line: Arc<Line, Global>,
    pub(crate) pass: Pass<Item, View>,
    pub(crate) opened: Opened,
    pub(crate) number: u8,
    pub(crate) count: u64,
}

impl Model for Host {
    ghost use Rattle.std.specs.Prelude.{◌≡◌, ◌≤◌, ◌^◌, length};
    ghost use Rattle.std.specs.Arc.{arc_value};
    ghost use Rattle.crossbeam_queue.specs.Passes.{view as known, IsPassOf, ruled_capacity};
    ghost use Rattle.onfi_queue.specs.declared.view.View.TheVariants.{AtHost};
    ghost use Rattle.onfi_queue.specs.Rule.{sent_of};
    ghost use Rattle.onfi_queue.specs.Ends.{HostView};

    ghost Value = { HostView };

    ghost view = { λ h. record {
      queue = h.pass.table_id;
      capacity = ruled_capacity (arc_value h.line);
      opened = h.opened;
      number = h.number;
      sent = sent_of (known h.pass);
    } };

    ghost invariant = { λ h. IsPassOf (arc_value h.line) h.pass
        × (known h.pass ≡ AtHost h.opened h.number (sent_of (known h.pass)))
        × (h.count ≡ length (sent_of (known h.pass)))
        × (h.count ≤ 2 ^ 32) };
}

impl Host {
    /// How many items the host sent to this channel, at most 2^32.
    pub fn sent(&self) -> u64
        ensures count { result ≡ length self.now.sent }
        ensures most { result ≤ 2 ^ 32 }
    {
        self.count
    }

    /// Sends a request to the channel, after all that waits there, and answers its serial: how many items this host
    /// sent before. It takes no memory.
    ///
    /// # Errors
    /// The first of `Refused`, where the device doesn't take the request, `SerialsSpent`, where 2^32 items were sent,
    /// and `Full`, where the queue was full. Nothing is sent then, and the request comes back.
    ///
    /// Of `Full` the contract says only that a full queue goes with what this host sent, and other hosts may fill one: that
    /// it isn't answered with room in the queue is tested.
    pub fn submit<R: Wait>(
        &mut self,
        rt: &R,
        request: Request,
    ) -> Result<u32, (SubmitFault, Request)>
        ensures serial { IfOk result (λ serial. serial ≡ length self.old.sent) }
        ensures fits { OnOk result (Fits self.old.opened.geometry request) }
        ensures sent { OnOk result (self.new ≡ after_sending self.old request) }

        ensures same { OnErr result (self.new ≡ self.old) }
        ensures returned { IfErr result (λ refused. refused.1 ≡ request) }
        ensures fault { IfErr result (λ refused. IsWhyNot self.old request refused.0) }
    {
        if let Err(fault) = check(&self.opened.geometry, &request) {
            return Err((SubmitFault::Refused(fault), request));
        }
        let Some(serial) = serial_after(self.count) else {
            return Err((SubmitFault::SerialsSpent, request));
        };
        let item = Item {
            host: self.number,
            serial,
            request,
        };
        match self.line.push_as::<Sends, R>(rt, &mut self.pass, item) {
            Ok(()) => {
                self.count += 1;
                Ok(serial)
            }
            Err(Item { request, .. }) => Err((SubmitFault::Full, request)),
        }
    }
}

/// The serial of a host's next item, if one is left.
pub(crate) fn serial_after(count: u64) -> Option<u32>
    ensures { MatchOption result (2 ^ 32 ≤ count) (λ serial. serial ≡ count) }
{
    u32::try_from(count).ok()
}

ghost use Rattle.std.specs.Prelude.{◌≡◌, IfSome, IfNone};
ghost use Rattle.onfi_reply.specs.Ends.{with_popped, SeatSawEmpty};
ghost use Rattle.onfi_reply.specs.Replies.{IsNext};

use crate::opened_for::OpenedFor;
use crate::rule::{Line, Pops};
use crate::view::View;
use crossbeam_queue::Pass;
use onfi_request::Reply;
use std::alloc::Global;
use std::marker::Model;
use std::sync::{Arc, Wait};

/// The inbox's pass of its queue.
#[derive(Drop)]
pub(crate) struct InboxSeat {
    pub(crate) line: Arc<Line, Global>,
    pub(crate) pass: Pass<Reply, View>,
    pub(crate) opened: OpenedFor,
}

impl Model for InboxSeat {
    ghost use Rattle.std.specs.Prelude.{◌≡◌};
    ghost use Rattle.std.specs.Arc.{arc_value};
    ghost use Rattle.crossbeam_queue.specs.Passes.{view as known, IsPassOf, ruled_capacity};
    ghost use Rattle.onfi_reply.specs.declared.view.View.TheVariants.{AtInbox};
    ghost use Rattle.onfi_reply.specs.Rule.{popped_of};
    ghost use Rattle.onfi_reply.specs.Ends.{InboxSeatView};

    ghost Value = { InboxSeatView };

    ghost view = { λ s. record {
      queue = s.pass.table_id;
      capacity = ruled_capacity (arc_value s.line);
      opened = s.opened;
      popped = popped_of (known s.pass);
    } };

    ghost invariant = { λ s. IsPassOf (arc_value s.line) s.pass
        × (known s.pass ≡ AtInbox s.opened (popped_of (known s.pass))) };
}

impl InboxSeat {
    /// Takes the reply that has waited longest.
    pub(crate) fn pop<R: Wait>(&mut self, rt: &R) -> Option<Reply>
        ensures popped { IfSome result (λ reply. self.new ≡ with_popped self.old reply) }
        ensures next { IfSome result (λ reply. IsNext self.old.opened self.old.popped reply) }
        ensures none { IfNone result ((self.new ≡ self.old) × SeatSawEmpty self.old) }
    {
        self.line.pop_as::<Pops, R>(rt, &mut self.pass)
    }
}

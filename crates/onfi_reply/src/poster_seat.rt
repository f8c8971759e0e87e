ghost use Rattle.std.specs.Prelude.{◌≡◌, ◌<◌, false, IfOk, IfErr, OnOk, OnErr};
ghost use Rattle.onfi_reply.specs.Ends.{fresh_seat, inbox_seat_of, with_posted, with_made, with_returned, SeatSawFull, SeatSettled};
ghost use Rattle.onfi_reply.specs.Replies.{IsNext};

use crate::inbox_seat::InboxSeat;
use crate::opened_for::OpenedFor;
use crate::rule::{Line, MakesInbox, Posts, TakesBack, open_line};
use crate::view::View;
use crossbeam_queue::Pass;
use onfi_request::Reply;
use std::alloc::{AllocError, Global};
use std::marker::Model;
use std::sync::{Arc, Wait};

/// The poster's pass of its queue, while the inbox is made, while it posts, and while the inbox is taken back.
#[derive(Drop)]
pub(crate) struct PosterSeat {
    line: Arc<Line, Global>,
    pass: Pass<Reply, View>,
    opened: OpenedFor,
}

impl Model for PosterSeat {
    ghost use Rattle.std.specs.Prelude.{◌≡◌};
    ghost use Rattle.std.specs.Arc.{arc_value};
    ghost use Rattle.crossbeam_queue.specs.Passes.{view as known, IsPassOf, ruled_capacity};
    ghost use Rattle.onfi_reply.specs.declared.view.View.TheVariants.{AtPoster};
    ghost use Rattle.onfi_reply.specs.Rule.{posted_of, made_of, back_of};
    ghost use Rattle.onfi_reply.specs.Ends.{PosterSeatView};

    ghost Value = { PosterSeatView };

    ghost view = { λ s. record {
      queue = s.pass.table_id;
      capacity = ruled_capacity (arc_value s.line);
      opened = s.opened;
      posted = posted_of (known s.pass);
      made = made_of (known s.pass);
      back = back_of (known s.pass);
    } };

    ghost invariant = { λ s. IsPassOf (arc_value s.line) s.pass
        × (known s.pass ≡ AtPoster s.opened (posted_of (known s.pass)) (made_of (known s.pass)) (back_of (known s.pass))) };
}

impl PosterSeat {
    /// The seat of a queue that is made here, with no inbox yet.
    ///
    /// # Errors
    /// Where memory was refused.
    pub(crate) fn open(
        alloc: Global,
        opened: OpenedFor,
        capacity: usize,
    ) -> Result<PosterSeat, AllocError>
        requires { 0 < capacity }
        ensures { IfOk result (λ seat. seat ≡ fresh_seat seat.queue opened capacity) }
    {
        let (line, mut pass) = Line::ruled(alloc, capacity)?;
        open_line(&line, opened, &mut pass);
        let line = Arc::new(alloc, line)?;
        Ok(PosterSeat { line, pass, opened })
    }

    /// The inbox's seat.
    ///
    /// # Errors
    /// Where memory was refused.
    pub(crate) fn make_inbox(&mut self) -> Result<InboxSeat, AllocError>
        requires { self.old.made ≡ false }
        ensures inbox { IfOk result (λ inbox. inbox ≡ inbox_seat_of self.old) }
        ensures made { OnOk result (self.new ≡ with_made self.old) }
    {
        let line = Arc::try_clone(&self.line)?;
        let pass = self.line.another::<MakesInbox>(&mut self.pass);
        Ok(InboxSeat {
            line,
            pass,
            opened: self.opened,
        })
    }

    /// Puts a reply after those that wait.
    pub(crate) fn post<R: Wait>(&mut self, rt: &R, reply: Reply) -> Result<(), Reply>
        requires { IsNext self.old.opened self.old.posted reply }
        ensures posted { OnOk result (self.new ≡ with_posted self.old reply) }
        ensures returned { IfErr result (λ back. back ≡ reply) }
        ensures same { OnErr result (self.new ≡ self.old) }
        ensures full { OnErr result (SeatSawFull self.old) }
    {
        self.line.push_as::<Posts, R>(rt, &mut self.pass, reply)
    }

    /// Takes the inbox's pass back. A law at the seat: what the inbox popped, and then what waits, was posted.
    pub(crate) fn take_back(&mut self, inbox: InboxSeat)
        requires { inbox.queue ≡ self.old.queue }
        ensures returned { self.new ≡ with_returned self.old inbox.popped }
        ensures settled { SeatSettled self.old.posted inbox.popped }
    {
        let InboxSeat { pass, .. } = inbox;
        self.line.absorb::<TakesBack>(&mut self.pass, pass);
        self.line.learn_as::<Posts>(&mut self.pass);
    }
}

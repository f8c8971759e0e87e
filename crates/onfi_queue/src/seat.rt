ghost use Rattle.std.specs.Prelude.{◌≡◌, ◌<◌, length, IfOk, OnOk, IfSome, IfNone};
ghost use Rattle.onfi_queue.specs.Items.{IsNext};
ghost use Rattle.onfi_queue.specs.Ends.{host_of_seat, with_accepted, with_made, with_returned, fresh_seat, SeatSawEmpty, SeatSettled};

use crate::host::Host;
use crate::opened::Opened;
use crate::rule::{Accepts, Line, MakesHost, TakesBack, open_line};
use crate::view::View;
use crossbeam_queue::Pass;
use onfi_request::Item;
use std::alloc::{AllocError, Global};
use std::marker::Model;
use std::sync::{Arc, Wait};

/// The intake's pass of its queue, while hosts are made, while it accepts, and while hosts are taken back.
#[derive(Drop)]
pub(crate) struct Seat {
    line: Arc<Line, Global>,
    pass: Pass<Item, View>,
    opened: Opened,
}

impl Model for Seat {
    ghost use Rattle.std.specs.Prelude.{◌≡◌};
    ghost use Rattle.std.specs.Arc.{arc_value};
    ghost use Rattle.crossbeam_queue.specs.Passes.{view as known, IsPassOf, ruled_capacity};
    ghost use Rattle.onfi_queue.specs.declared.view.View.TheVariants.{AtIntake};
    ghost use Rattle.onfi_queue.specs.Rule.{accepted_of, made_of, back_of};
    ghost use Rattle.onfi_queue.specs.Ends.{IntakeSeatView};

    ghost Value = { IntakeSeatView };

    ghost view = { λ s. record {
      queue = s.pass.table_id;
      capacity = ruled_capacity (arc_value s.line);
      opened = s.opened;
      accepted = accepted_of (known s.pass);
      made = made_of (known s.pass);
      back = back_of (known s.pass);
    } };

    ghost invariant = { λ s. IsPassOf (arc_value s.line) s.pass
        × (known s.pass ≡ AtIntake s.opened (accepted_of (known s.pass)) (made_of (known s.pass)) (back_of (known s.pass))) };
}

impl Seat {
    /// The seat of a queue that is made here, with no host yet.
    ///
    /// # Errors
    /// Where memory was refused.
    pub(crate) fn open(alloc: Global, opened: Opened, capacity: usize) -> Result<Seat, AllocError>
        requires { 0 < capacity }
        ensures { IfOk result (λ seat. seat ≡ fresh_seat seat.queue opened capacity) }
    {
        let (line, mut pass) = Line::ruled(alloc, capacity)?;
        open_line(&line, opened, &mut pass);
        let line = Arc::new(alloc, line)?;
        Ok(Seat { line, pass, opened })
    }

    /// The next host.
    ///
    /// # Errors
    /// Where memory was refused.
    pub(crate) fn make_host(&mut self, number: u8) -> Result<Host, AllocError>
        requires { number ≡ self.old.made }
        ensures host { IfOk result (λ host. host ≡ host_of_seat self.old number) }
        ensures made { OnOk result (self.new ≡ with_made self.old) }
    {
        let line = Arc::try_clone(&self.line)?;
        let pass = self.line.another::<MakesHost>(&mut self.pass);
        Ok(Host {
            line,
            pass,
            opened: self.opened,
            number,
            count: 0,
        })
    }

    /// The channel whose queue this is.
    pub(crate) fn channel(&self) -> u8
        ensures { result ≡ self.now.opened.channel }
    {
        self.opened.channel
    }

    /// Takes the oldest item.
    pub(crate) fn accept<R: Wait>(&mut self, rt: &R) -> Option<Item>
        ensures accepted { IfSome result (λ item. self.new ≡ with_accepted self.old item) }
        ensures next { IfSome result (λ item. IsNext self.old.opened.geometry self.old.made self.old.accepted item) }
        ensures none { IfNone result ((self.new ≡ self.old) × SeatSawEmpty self.old) }
    {
        self.line.pop_as::<Accepts, R>(rt, &mut self.pass)
    }

    /// Takes a host's pass back.
    pub(crate) fn take_back(&mut self, host: Host)
        requires queue { host.queue ≡ self.old.queue }
        requires turn { host.number ≡ length self.old.back }
        ensures { self.new ≡ with_returned self.old host.sent }
    {
        let Host { pass, .. } = host;
        self.line.absorb::<TakesBack>(&mut self.pass, pass);
    }

    /// A law at the seat: what each host sent that was taken back is what was accepted of it, and then what waits.
    pub(crate) fn settle(&mut self)
        ensures same { self.new ≡ self.old }
        ensures settled { SeatSettled self.old }
    {
        self.line.learn_as::<Accepts>(&mut self.pass);
    }
}

//! Time that passes.

ghost use Rattle.std.specs.Prelude.{◌≡◌, ◌+◌, ◌<◌, ◌^◌, max, nat_lt, true, if◌then◌else◌, None, Some, IfOk, IfErr, MatchOption, OnErr};
ghost use Rattle.onfi_core.specs.Steps.{is_current, outdated_by, readied, ready_of, ready_refusal, wait_refusal, waited};
ghost use Rattle.onfi_core.specs.Refusals.{ready_outcome, wait_outcome};

use crate::half::Half;
use crate::outcome::Cause;
use onfi_flight::TooLate;
use std::alloc::Global;

/// Why the bus doesn't wait, in the order in which it is reported.
#[derive(Clone, Copy, Debug, PartialEq, Eq)]
pub enum WaitRefusal {
    /// The channel stopped.
    Stopped(Cause),
    /// The moment, or the last start of what would be left of the plan, is at 2^62 ns or later.
    TooLate,
}

/// Why a LUN isn't found ready, in the order in which it is reported.
#[derive(Clone, Copy, Debug, PartialEq, Eq)]
pub enum ReadyRefusal {
    /// There is no such LUN.
    NoSuchLun,
    /// The channel stopped.
    Stopped(Cause),
    /// No array of the LUN works: it is free, or its group is in its commands or in its posts.
    NotInArray,
}

impl Half {
    /// The bus was idle until that moment, in ns of the channel's clock: no phase starts sooner. What is left of the plan
    /// starts later, all of it by as much as its first phase would start too soon; it stays legal. It isn't optimal for the
    /// bus as it is now, so from then on there is something to plan while a phase is left. From when on the bus is free is
    /// answered. A moment that has passed changes nothing. This takes no memory.
    ///
    /// # Errors
    /// `Stopped` where the channel stopped; `TooLate` where the moment, or the last start of what would be left of the plan,
    /// is at 2^62 ns or later. Then nothing changes.
    pub fn wait(&mut self, alloc: Global, moment: u64) -> Result<u64, WaitRefusal>
        requires settled { self.old.lent ≡ None }
        ensures waited { IfOk result (λ bus_free. (wait_refusal moment self.old.state ≡ None) × (bus_free ≡ max self.old.state.now.bus_free moment)
            × (self.new ≡ record self.old { state = waited moment self.old.state })) }
        ensures refused { IfErr result (λ refusal. wait_refusal moment self.old.state ≡ Some (wait_outcome refusal)) }
        ensures unchanged { OnErr result (self.new ≡ self.old) }
        ensures settled { self.new.lent ≡ None }
        ensures setup { self.new.setup ≡ self.old.setup }
    {
        if let Some(cause) = self.stopped {
            return Err(WaitRefusal::Stopped(cause));
        }
        let outdated = self.outdated_by(moment);
        match self.way.wait(alloc, moment) {
            Ok(bus_free) => {
                self.outdated = outdated;
                Ok(bus_free)
            }
            Err(TooLate) => Err(WaitRefusal::TooLate),
        }
    }

    /// Why no LUN is found ready, if so: reported before the chip is asked.
    pub fn refuses_ready(&self, lun: u8) -> Option<ReadyRefusal>
        ensures { MatchOption result (ready_refusal lun self.now.state ≡ None) (λ refusal. ready_refusal lun self.now.state ≡ Some (ready_outcome refusal)) }
    {
        if lun >= self.setup.geometry.lun_count {
            return Some(ReadyRefusal::NoSuchLun);
        }
        if let Some(cause) = self.stopped {
            return Some(ReadyRefusal::Stopped(cause));
        }
        if self.way.is_in_array(lun) {
            None
        } else {
            Some(ReadyRefusal::NotInArray)
        }
    }

    /// The chip says that the array of that LUN is done: its first post may start as the bus is free, or as it might
    /// before. From when on is answered, in ns. What is left of the plan stays as it is, and legal; where the LUN is ready
    /// sooner there is something to plan while a phase is left. This takes no memory.
    ///
    /// Where the LUN isn't ready the chip's next post breaks what the chip asks for.
    pub fn ready(&mut self, lun: u8) -> u64
        requires settled { self.old.lent ≡ None }
        requires in_array { ready_refusal lun self.old.state ≡ None }
        ensures readied { self.new ≡ record self.old { state = readied lun self.old.state } }
        ensures ready { result ≡ ready_of lun self.old.state }
    {
        let bus_free = self.way.bus_free();
        let before = self.way.free_from(lun);
        self.outdated = self.outdated_by(before);
        self.way.ready(lun, bus_free)
    }

    /// Whether the plan is that of the bus and the LUNs as they stand, or nothing of it is left.
    pub(crate) fn is_current(&self) -> bool
        ensures { result ≡ is_current self.now.state }
    {
        if self.outdated {
            !self.has_phase()
        } else {
            true
        }
    }

    // Whether the plan was outdated, or is where the bus is free from that moment on at the soonest; where nothing is planned
    // none is.
    fn outdated_by(&self, moment: u64) -> bool
        ensures { result ≡ outdated_by self.now.state.books self.now.state.outdated self.now.state.now.bus_free moment }
    {
        if !self.way.plans() {
            return self.outdated;
        }
        self.outdated || self.way.bus_free() < moment
    }
}

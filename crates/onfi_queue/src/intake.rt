ghost use Rattle.std.specs.Prelude.{◌≡◌, [], length, map, IfSome, IfNone};
ghost use Rattle.onfi_queue.specs.Items.{IsNext};
ghost use Rattle.onfi_queue.specs.Ends.{after_accepting, AreHostsOf, SawEmpty, Settled, SeatSettled};

use crate::host::Host;
use crate::seat::Seat;
use onfi_request::Item;
use std::marker::Model;
use std::sync::Wait;

/// The sequencer's end of a channel's submission queue. It may be used from any one thread at a time.
///
/// Contracts see its queue, the queue's capacity and what that was opened with, and all items that were accepted.
#[derive(Drop)]
pub struct Intake {
    pub(crate) seat: Seat,
}

impl Model for Intake {
    ghost use Rattle.std.specs.Prelude.{◌≡◌, []};
    ghost use Rattle.onfi_queue.specs.Ends.{IntakeView};

    ghost Value = { IntakeView };

    ghost view = { λ t. record {
      queue = t.seat.queue;
      capacity = t.seat.capacity;
      opened = t.seat.opened;
      accepted = t.seat.accepted;
    } };

    ghost invariant = { λ t. (t.seat.made ≡ 4) × (t.seat.back ≡ []) };
}

impl Intake {
    /// The channel whose queue this is, 0 to 3.
    pub fn channel(&self) -> u8
        ensures { result ≡ self.now.opened.channel }
    {
        self.seat.channel()
    }

    /// Accepts the item that has waited longest. It takes no memory.
    ///
    /// `None` comes where the queue was empty. Of that the contract says only that an empty queue goes with what was
    /// accepted, as it always may: that an item which waits is accepted is tested.
    pub fn accept<R: Wait>(&mut self, rt: &R) -> Option<Item>
        ensures accepted { IfSome result (λ item. self.new ≡ after_accepting self.old item) }
        ensures next { IfSome result (λ item. IsNext self.old.opened.geometry 4 self.old.accepted item) }
        ensures same { IfNone result (self.new ≡ self.old) }
        ensures empty { IfNone result (SawEmpty self.old) }
    {
        self.seat.accept(rt)
    }

    /// Takes all hosts back, and answers how many items each sent. It takes no memory, and what still waits is dropped.
    pub fn close(self, hosts: [Host; 4]) -> [u64; 4]
        requires hosts { AreHostsOf self.queue 0 hosts }
        ensures sent { result ≡ map (λ host. length host.sent) hosts }
        ensures settled { Settled self (map (λ host. host.sent) hosts) }
    {
        let sent = counts(&hosts);
        let _settled = with_all_back(self.seat, hosts);
        sent
    }
}

/// How many items each host sent.
fn counts(hosts: &[Host; 4]) -> [u64; 4]
    ensures { result ≡ map (λ host. length host.sent) hosts.now }
{
    [
        hosts[0].sent(),
        hosts[1].sent(),
        hosts[2].sent(),
        hosts[3].sent(),
    ]
}

/// The seat with all four hosts taken back.
fn with_all_back(mut seat: Seat, hosts: [Host; 4]) -> Seat
    requires hosts { AreHostsOf seat.queue 0 hosts }
    requires made { seat.made ≡ 4 }
    requires fresh { seat.back ≡ [] }
    ensures back { result ≡ record seat { back = map (λ host. host.sent) hosts } }
    ensures settled { SeatSettled result }
{
    let [first, second, third, fourth] = hosts;
    seat.take_back(first);
    seat.take_back(second);
    seat.take_back(third);
    seat.take_back(fourth);
    seat.settle();
    seat
}

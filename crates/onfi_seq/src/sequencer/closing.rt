//! Closing: all ends come back.

ghost use Rattle.std.specs.Prelude.{◌≡◌, length, map};
ghost use Rattle.onfi_die.specs.Rightful.{AreRightful};
ghost use Rattle.onfi_core.specs.State.{device_for};
ghost use Rattle.onfi_queue.specs.Ends.{Settled};
ghost use Rattle.onfi_seq.specs.Drained.{AllSettled, AreOtherEnds, CompletesWhere, inbox_queues, poster_queues};

use crate::closed::Closed;
use crate::sequencer::Sequencer;
use onfi_chip::Chip;
use onfi_plan::Planner;
use onfi_queue::Host;
use onfi_reply::{Inbox, Poster};

impl<C: Chip, P: Planner> Sequencer<C, P> {
    /// Takes all hosts and inboxes back, in the order of the hosts' numbers, and answers how much went through the channel. It
    /// takes no memory and doesn't wait; what still waits in a queue is dropped.
    pub fn close<R>(self, _rt: &R, hosts: [Host; 4], inboxes: [Inbox; 4]) -> Closed
    where
        P: Drop,
        C: Drop,
        requires { AreOtherEnds self.0 hosts inboxes }
        ensures sent { result.sent ≡ map (λ host. length host.sent) hosts }
        ensures accepted { result.accepted ≡ length self.0.half.accepted }
        ensures posted { result.posted ≡ length self.0.half.posted }
        ensures submissions { Settled self.0.intake (map (λ host. host.sent) hosts) }
        ensures completions { AllSettled self.0.posters inboxes }
        ensures rightful { AreRightful (device_for self.0.setup (C.state self.1)) self.0.half.accepted self.0.half.posted }
        ensures complete { CompletesWhere result self.0.half hosts }
    {
        self.look();
        let half = self.driver.half();
        let (accepted, posted) = (half.accepted_count(), half.posted_count());
        let _answered = half.is_answered();
        let Sequencer {
            intake,
            posters,
            ..
        } = self;
        close_posters(posters, inboxes);
        let sent = intake.close(hosts);
        Closed {
            sent,
            accepted,
            posted,
        }
    }
}

// Takes the inbox of each queue back.
fn close_posters(posters: [Poster; 4], inboxes: [Inbox; 4])
    requires { inbox_queues inboxes ≡ poster_queues posters }
    ensures { AllSettled posters inboxes }
{
    let [first, second, third, fourth] = posters;
    let [inbox_0, inbox_1, inbox_2, inbox_3] = inboxes;
    first.close(inbox_0);
    second.close(inbox_1);
    third.close(inbox_2);
    fourth.close(inbox_3);
}

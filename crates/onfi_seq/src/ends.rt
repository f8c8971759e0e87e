//! The ends of a channel's queues.

ghost use Rattle.std.specs.Prelude.{◌≡◌, ◌<◌, IfOk, map};
ghost use Rattle.onfi_queue.specs.Ends.{four_hosts};
ghost use Rattle.onfi_reply.specs.Ends.{inbox_of};
ghost use Rattle.onfi_seq.specs.Sequencer.{AreFreshPosters, IsFreshIntake, IsFreshPoster};

use onfi_core::Setup;
use onfi_queue::{Host, Intake};
use onfi_reply::{Inbox, Poster};
use std::alloc::{AllocError, Global};

/// The ends of a channel's queues: the sequencer's own, and those of its four hosts, in the order of the hosts' numbers.
#[derive(Drop)]
pub struct Ends {
    pub intake: Intake,
    pub posters: [Poster; 4],
    pub hosts: [Host; 4],
    pub inboxes: [Inbox; 4],
}

impl Ends {
    /// Opens the queues of a channel of the setup, with its geometry and room: intake and posters as
    /// [`Sequencer::open`](crate::Sequencer::open) asks, and their other ends.
    ///
    /// # Errors
    /// Where memory was refused.
    pub fn open(alloc: Global, setup: &Setup, channel: u8) -> Result<Ends, AllocError>
        requires { channel < setup.now.channels }
        ensures intake { IfOk result (λ ends. IsFreshIntake setup.now channel ends.intake) }
        ensures posters { IfOk result (λ ends. AreFreshPosters setup.now channel ends.posters) }
        ensures hosts { IfOk result (λ ends. ends.hosts ≡ four_hosts ends.intake) }
        ensures inboxes { IfOk result (λ ends. ends.inboxes ≡ map inbox_of ends.posters) }
    {
        let room = usize::from(setup.submit_cap);
        let (intake, hosts) = onfi_queue::open(alloc, channel, &setup.geometry, room)?;
        let (first, inbox_0) = open_replies(alloc, setup, channel, 0)?;
        let (second, inbox_1) = open_replies(alloc, setup, channel, 1)?;
        let (third, inbox_2) = open_replies(alloc, setup, channel, 2)?;
        let (fourth, inbox_3) = open_replies(alloc, setup, channel, 3)?;
        Ok(Ends {
            intake,
            posters: [first, second, third, fourth],
            hosts,
            inboxes: [inbox_0, inbox_1, inbox_2, inbox_3],
        })
    }
}

// The completion queue of a host.
fn open_replies(
    alloc: Global,
    setup: &Setup,
    channel: u8,
    host: u8,
) -> Result<(Poster, Inbox), AllocError>
    requires channel { channel < 4 }
    requires host { host < 4 }
    ensures poster { IfOk result (λ ends. IsFreshPoster setup.now channel host ends.0) }
    ensures inbox { IfOk result (λ ends. ends.1 ≡ inbox_of ends.0) }
{
    let room = usize::from(setup.post_cap);
    onfi_reply::open(alloc, channel, host, &setup.geometry, room)
}

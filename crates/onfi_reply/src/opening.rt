ghost use Rattle.std.specs.Prelude.{◌≡◌, ◌<◌, ◌≤◌, IfOk};
ghost use Rattle.onfi_reply.specs.Ends.{fresh_poster, inbox_of};

use crate::inbox::Inbox;
use crate::opened_for::OpenedFor;
use crate::poster::Poster;
use crate::poster_seat::PosterSeat;
use onfi_addr::Geometry;
use onfi_die::Total;
use std::alloc::{AllocError, Global};
use std::collections::VecDeque;

/// Opens the completion queue of a host, 0 to 3, on a channel, 0 to 3, for a device of this geometry, with room for
/// `capacity` replies, 1 to 1,024: its poster and its inbox.
///
/// # Errors
/// Where memory was refused.
pub fn open(
    alloc: Global,
    channel: u8,
    host: u8,
    geometry: &Geometry,
    capacity: usize,
) -> Result<(Poster, Inbox), AllocError>
    requires channel { channel < 4 }
    requires host { host < 4 }
    requires some_room { 1 ≤ capacity }
    requires most_room { capacity ≤ 1024 }
    ensures poster { IfOk result (λ ends. ends.0 ≡ fresh_poster ends.0.queue (record { channel = channel; host = host; geometry = geometry.now }) capacity) }
    ensures inbox { IfOk result (λ ends. ends.1 ≡ inbox_of ends.0) }
{
    let opened = OpenedFor {
        channel,
        host,
        geometry: *geometry,
    };
    let mut poster = PosterSeat::open(alloc, opened, capacity)?;
    let inbox = poster.make_inbox()?;
    Ok((
        Poster { seat: poster },
        Inbox {
            seat: inbox,
            waiting: VecDeque::new(alloc),
            refusals: Total::none(),
        },
    ))
}

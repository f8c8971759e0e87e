ghost use Rattle.std.specs.Prelude.{◌≡◌, ◌<◌, ◌≤◌, IfOk};
ghost use Rattle.onfi_queue.specs.Ends.{fresh_intake, four_hosts};

use crate::host::Host;
use crate::intake::Intake;
use crate::opened::Opened;
use crate::seat::Seat;
use onfi_addr::Geometry;
use std::alloc::{AllocError, Global};

/// Opens the submission queue of a channel, 0 to 3, for a device of this geometry, with room for `capacity` items, 1 to
/// 1,024: its intake, and its four hosts in the order of their numbers. A host that isn't used sends nothing.
///
/// # Errors
/// Where memory was refused.
pub fn open(
    alloc: Global,
    channel: u8,
    geometry: &Geometry,
    capacity: usize,
) -> Result<(Intake, [Host; 4]), AllocError>
    requires channel { channel < 4 }
    requires some_room { 1 ≤ capacity }
    requires most_room { capacity ≤ 1024 }
    ensures intake { IfOk result (λ ends. ends.0 ≡ fresh_intake ends.0.queue (record { channel = channel; geometry = geometry.now }) capacity) }
    ensures hosts { IfOk result (λ ends. ends.1 ≡ four_hosts ends.0) }
{
    let opened = Opened {
        channel,
        geometry: *geometry,
    };
    let mut seat = Seat::open(alloc, opened, capacity)?;
    let first = seat.make_host(0)?;
    let second = seat.make_host(1)?;
    let third = seat.make_host(2)?;
    let fourth = seat.make_host(3)?;
    Ok((Intake { seat }, [first, second, third, fourth]))
}

//! Setups of the sample device, and chips for them.

ghost use Rattle.std.specs.Prelude.{◌≡◌, IfOk};
ghost use Rattle.onfi_chip.specs.SimChip.{chip_in};
ghost use Rattle.onfi_core.specs.Queues.{IsFresh};

use onfi_chip::SimChip;
use onfi_core::Setup;
use onfi_group::Rules;
use onfi_samples::{sample_geometry, sample_timing};
use std::alloc::{AllocError, Global};
use std::process::Abort;

/// Channels of four hosts, whose queues have that much room.
pub(crate) fn setup_of(rt: &impl Abort, channels: u8, room: u16) -> Setup
    ensures { (result.channels ≡ channels) × (result.hosts ≡ 4) }
{
    let rules = Rules::new(true, true, false, 1);
    let setup = Setup::new(
        sample_geometry(),
        sample_timing(),
        rules,
        channels,
        4,
        8,
        room,
        room,
        1_000,
    );
    setup.expect(rt, "in range")
}

/// A chip of the setup's device.
pub(crate) fn new_chip(alloc: Global, setup: &Setup) -> Result<SimChip, AllocError>
    ensures { IfOk result (λ chip. IsFresh setup.now (chip_in chip)) }
{
    let (faults, calls, statuses) = (Vec::new(alloc), Vec::new(alloc), Vec::new(alloc));
    SimChip::new(alloc, setup.geometry, setup.timing, faults, calls, statuses)
}

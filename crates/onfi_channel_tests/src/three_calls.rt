//! A chip of three calls, which doesn't say whether a LUN is ready, and has no sectors.

ghost use Rattle.std.specs.Prelude.{IfOk};
ghost use Rattle.onfi_chip.specs.SimChip.{chip_in};
ghost use Rattle.onfi_core.specs.Queues.{IsFresh};

use crate::opened::new_chip;
use crate::sectors::{sectored_timing, setup};
use onfi_addr::Place;
use onfi_chip::{Chip, ChipFault, Closer, SimChip};
use onfi_core::{Cause, Core, Event, Outcome, Setup};
use onfi_request::{Bytes, Request};
use onfi_samples::{sample_geometry, sample_timing};
use onfi_timing::Kind;
use std::alloc::{AllocError, Global};

/// Commands, data outputs and statuses of a simulated chip, and nothing else of it.
#[derive(Drop)]
struct Silent {
    chip: SimChip,
}

impl Chip for Silent {
    ghost use Rattle.onfi_chip.specs.SimChip.{chip_in};

    ghost state = { λ silent. chip_in silent.chip };

    fn command(
        &mut self,
        alloc: Global,
        now: u64,
        row: u64,
        opener: Kind,
        closer: Closer,
        bytes: &[u8],
    ) -> Result<(), ChipFault> {
        self.chip.command(alloc, now, row, opener, closer, bytes)
    }

    fn data_out(&mut self, now: u64, row: u64, out: &mut [u8]) -> Result<(), ChipFault> {
        self.chip.data_out(now, row, out)
    }

    fn status(&mut self, now: u64, row: u64) -> Result<u8, ChipFault> {
        self.chip.status(now, row)
    }
}

/// What a chip says of LUN 0 at that moment.
fn says_ready<C: Chip>(chip: &mut C, now: u64) -> bool {
    chip.poll(now, 0)
}

#[test]
fn a_chip_of_three_calls_never_says_that_it_is_ready(rt: HostRuntime) {
    let alloc = rt.alloc();
    let (geometry, timing) = (sample_geometry(), sample_timing());
    let chip = SimChip::new(
        alloc,
        geometry,
        timing,
        Vec::new(alloc),
        Vec::new(alloc),
        Vec::new(alloc),
    )
    .expect(&rt, "memory");
    let mut silent = Silent { chip };
    for now in [0, u64::MAX] {
        assert!(rt; !says_ready(&mut silent, now));
    }
}

// Such a chip of the setup's device.
fn silent_chip(alloc: Global, setup: &Setup) -> Result<Silent, AllocError>
    ensures { IfOk result (λ silent. IsFresh setup.now (chip_in silent.chip)) }
{
    let chip = new_chip(alloc, setup)?;
    Ok(Silent { chip })
}

#[test]
fn a_chip_of_three_calls_has_no_sectors(rt: HostRuntime) -> Result<(), AllocError> {
    let alloc = rt.alloc();
    let setup = setup(&rt, sectored_timing(&rt)).expect(&rt, "in range");
    let chips = Vec::from_array(alloc, [silent_chip(alloc, &setup)?])?;
    let mut core: Core<Silent> = Core::open(alloc, setup, chips).expect(&rt, "a core");
    let request = Request {
        kind: Kind::ReadSectors { first: 0, count: 1 },
        place: Place {
            lun: 0,
            block: 0,
            page: 0,
        },
        bytes: Bytes::of(Vec::new(alloc)),
    };
    let submit = Event::Submit {
        channel: 0,
        host: 0,
        request,
    };
    assert!(rt; matches!(core.step(alloc, submit), Outcome::Submitted(_)));
    let accepted = core.step(alloc, Event::Accept { channel: 0 });
    assert!(rt; matches!(accepted, Outcome::Accepted(_)));
    let planned = core.step(alloc, Event::Plan { channel: 0 });
    assert!(rt; matches!(planned, Outcome::Planned(_)));
    let command = core.step(alloc, Event::Bus { channel: 0 });
    assert!(rt; matches!(command, Outcome::Phase(_)));
    let output = core.step(alloc, Event::Bus { channel: 0 });
    assert!(rt; matches!(output, Outcome::Stopped(Cause::Bus)));
    Ok(())
}

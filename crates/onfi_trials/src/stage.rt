//! What the first rows of a trial say of a channel.

ghost use Rattle.std.specs.Prelude.{IfOk};
ghost use Rattle.onfi_chip.specs.SimChip.{chip_in};
ghost use Rattle.onfi_core.specs.Queues.{IsFresh};

use crate::ended::Ended;
use crate::rows::{Row, Word, cap_u8, cap_u16, cap_u32};
use onfi_addr::Geometry;
use onfi_chip::{ArrayTime, SimChip};
use onfi_core::{Choice, Setup, SetupFault};
use onfi_die::Fault;
use onfi_group::Rules;
use onfi_planners::By;
use onfi_samples::{sample_geometry, sample_timing};
use onfi_timing::{Spans, Timing};
use std::alloc::{AllocError, Global};

/// A channel of the sample device before it opens.
#[derive(Drop)]
pub(crate) struct Stage {
    together: bool,
    geometry: Geometry,
    timing: Timing,
    choice: Choice,
    pub(crate) planner: By,
    faults: Vec<Fault>,
    calls: Vec<u32>,
    statuses: Vec<u32>,
    times: Vec<ArrayTime>,
}

/// The greatest length of a phase or of a wait, in ns.
const LONGEST: u64 = (1 << 50) - 1;

impl Stage {
    fn new(alloc: Global) -> Stage {
        Stage {
            together: true,
            geometry: sample_geometry(),
            timing: sample_timing(),
            choice: Choice::InOrder,
            planner: By::Plain,
            faults: Vec::new(alloc),
            calls: Vec::new(alloc),
            statuses: Vec::new(alloc),
            times: Vec::new(alloc),
        }
    }

    /// What the rows say, up to the one that opens the channel; and its place.
    pub(crate) fn of(alloc: Global, rows: &[Row]) -> Result<(Stage, usize), Ended> {
        let mut stage = Stage::new(alloc);
        for (place, row) in rows.iter().enumerate() {
            match row.word {
                Word::Open => return Ok((stage, place)),
                Word::Fault | Word::ChipFail | Word::NotReady | Word::Array => {
                    stage.take_trouble(row)?;
                }
                word => stage.take(word)?,
            }
        }
        Err(Ended::NoTrial)
    }

    fn take(&mut self, word: Word) -> Result<(), Ended> {
        match word {
            Word::Apart => self.together = false,
            Word::Longest => self.timing = longest()?,
            Word::Sectored => {
                self.geometry = divide_pages()?;
                self.timing = time_sectors()?;
            }
            Word::ByNext => self.choice = Choice::NextPhase,
            Word::Remembering => self.planner = By::Within,
            Word::Best => self.planner = By::Within,
            _ => return Err(Ended::NoTrial),
        }
        Ok(())
    }

    fn take_trouble(&mut self, row: &Row) -> Result<(), AllocError> {
        let [first, second, third, ..] = row.numbers;
        match row.word {
            Word::Fault => self.faults.push(Fault {
                lun: cap_u8(first),
                block: cap_u16(second),
                number: cap_u32(third),
            })?,
            Word::ChipFail => self.calls.push(cap_u32(first))?,
            Word::NotReady => self.statuses.push(cap_u32(first))?,
            _ => self.times.push(ArrayTime {
                lun: cap_u8(first),
                number: cap_u32(second),
                length: third,
            })?,
        }
        Ok(())
    }

    /// The setup of the row that opens the channel.
    pub(crate) fn setup(&self, open: &Row) -> Result<Setup, SetupFault> {
        let [channels, hosts, batch, submit_cap, post_cap, limit, _] = open.numbers;
        let setup = Setup::new(
            self.geometry,
            self.timing,
            Rules::new(true, self.together, false, 1),
            cap_u8(channels),
            cap_u8(hosts),
            cap_u8(batch),
            cap_u16(submit_cap),
            cap_u16(post_cap),
            cap_u32(limit),
        )?;
        Ok(setup.with_choice(self.choice))
    }

    /// The chip of the setup, as it is opened.
    pub(crate) fn into_chip(self, alloc: Global, setup: Setup) -> Result<SimChip, AllocError>
        ensures { IfOk result (λ chip. IsFresh setup (chip_in chip)) }
    {
        let (geometry, timing) = (setup.geometry, setup.timing);
        let Stage {
            faults,
            calls,
            statuses,
            times,
            ..
        } = self;
        let chip = SimChip::new(alloc, geometry, timing, faults, calls, statuses)?;
        Ok(chip.with_array_times(times))
    }
}

fn longest() -> Result<Timing, Ended> {
    match Spans::new(LONGEST, 0, LONGEST, LONGEST) {
        Ok(spans) => Ok(Timing::new(spans, spans, spans)),
        Err(_) => Err(Ended::NoTrial),
    }
}

/// The sample device with four sectors of a page.
fn divide_pages() -> Result<Geometry, Ended> {
    match sample_geometry().with_sector_bytes(132) {
        Some(geometry) => Ok(geometry),
        None => Err(Ended::NoTrial),
    }
}

/// Its timing: a sector takes 2,640 ns, and 440 ns come before the first.
fn time_sectors() -> Result<Timing, Ended> {
    let mut timing = sample_timing();
    for count in 1..5u8 {
        let Ok(more) = timing.with_sectors(count, 440 + 2_640 * u64::from(count)) else {
            return Err(Ended::NoTrial);
        };
        timing = more;
    }
    Ok(timing)
}

//! A chip that keeps what its bus carries.
ghost use Rattle.std.specs.Prelude.{◌≡◌, IfSome, IsBitSet, true, false};
ghost use Rattle.std.specs.List.{flat_map};
ghost use Rattle.onfi_schedule.specs.Trace.{line_text};
ghost use Rattle.onfi_chip.specs.Chip.{IsAsOpened};
ghost use Rattle.onfi_record.specs.Carried.{IsNewLog};
ghost use Rattle.onfi_record.specs.Recording.{IsRecorded, IsTraceText, chip_in};

use crate::bus_log::BusLog;
use onfi_addr::Geometry;
use onfi_chip::{Chip, ChipFault, Closer, decode_status};
use onfi_schedule::{TraceLine, trace_text};
use onfi_timing::{Kind, Timing};
use std::alloc::Global;
use std::marker::Model;

/// A chip that keeps what its bus carries: each command and each post that it answered, and nothing else. It takes memory for
/// its log alone, and answers as the chip does where that is refused.
///
/// Contracts see the log, and the chip.
#[derive(Drop)]
pub struct Recorder<C: Chip> {
    log: BusLog,
    chip: C,
}

impl<C: Chip> Model for Recorder<C> {
    ghost use Rattle.onfi_record.specs.Recording.{IsRecorded, RecorderView};

    ghost Value = { RecorderView C };

    ghost view = { λ r. (r.log, r.chip) };

    ghost invariant = { λ r. IsRecorded r.log (C.state r.chip) };
}

impl<C: Chip> Recorder<C> {
    /// A chip of this geometry and timing as it opens; what its bus carries is kept where `is_kept`.
    pub fn new(
        alloc: Global,
        chip: C,
        geometry: Geometry,
        timing: Timing,
        is_kept: bool,
    ) -> Recorder<C>
        requires { IsAsOpened geometry timing (C.state chip) }
        ensures chip { result.1 ≡ chip }
        ensures log { IsNewLog geometry timing is_kept result.0 }
    {
        let log = BusLog::new(alloc, geometry, timing, is_kept);
        Recorder { log, chip }
    }

    /// The chip, to look at.
    pub fn chip(&self) -> &C
        ensures { result.now ≡ self.now.1 }
    {
        &self.chip
    }

    /// What its bus carried, to look at.
    pub fn log(&self) -> &BusLog
        ensures log { result.now ≡ self.now.0 }
        ensures recorded { IsRecorded self.now.0 (chip_in C.state self.now) }
    {
        &self.log
    }

    /// The trace of all phases that its bus carried since it opened, as `plan --requests` prints one; requests are numbered in the
    /// order in which they begin. None where nothing is kept, or memory for a line was refused.
    pub fn trace(&self, alloc: Global) -> Option<Vec<u8>>
        ensures { IfSome result (λ text. IsTraceText text.items) }
    {
        let log = self.log();
        if !log.is_whole {
            return None;
        }
        text_of(alloc, log.lines.as_slice())
    }
}

/// The text of a trace of these lines; none where memory was refused to it.
fn text_of(alloc: Global, lines: &[TraceLine]) -> Option<Vec<u8>>
    ensures { IfSome result (λ text. text.items ≡ flat_map (line_text true) lines.now) }
{
    match trace_text(alloc, lines, true) {
        Ok(text) => Some(text),
        Err(_) => None,
    }
}

/// Whether a status says that its LUN is ready.
fn is_ready(byte: u8) -> bool
    ensures ready { result ≡ true → IsBitSet byte 6 }
    ensures busy { result ≡ false → ¬ IsBitSet byte 6 }
{
    decode_status(byte).is_some()
}

impl<C: Chip> Chip for Recorder<C> {
    ghost use Rattle.onfi_record.specs.Recording.{chip_in};

    ghost state = { chip_in C.state };

    fn command(
        &mut self,
        alloc: Global,
        now: u64,
        row: u64,
        opener: Kind,
        closer: Closer,
        bytes: &[u8],
    ) -> Result<(), ChipFault> {
        self.chip.command(alloc, now, row, opener, closer, bytes)?;
        self.log.command(now, row, opener, closer);
        Ok(())
    }

    fn data_out(&mut self, now: u64, row: u64, out: &mut [u8]) -> Result<(), ChipFault> {
        self.chip.data_out(now, row, out)?;
        self.log.post(now, row);
        Ok(())
    }

    fn sectors_out(
        &mut self,
        now: u64,
        row: u64,
        column: u16,
        out: &mut [u8],
    ) -> Result<(), ChipFault> {
        self.chip.sectors_out(now, row, column, out)?;
        self.log.post(now, row);
        Ok(())
    }

    fn status(&mut self, now: u64, row: u64) -> Result<u8, ChipFault> {
        let byte = self.chip.status(now, row)?;
        if is_ready(byte) {
            self.log.post(now, row);
        }
        Ok(byte)
    }

    fn poll(&mut self, now: u64, lun: u8) -> bool {
        self.chip.poll(now, lun)
    }
}

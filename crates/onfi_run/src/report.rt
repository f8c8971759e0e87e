//! What a run came to.
ghost use Rattle.std.specs.Prelude.{◌≡◌, length, IfOk, IfSome, None, Some};

use crate::answers::Got;
use crate::bus_use::BusUse;
use crate::channel_end::ChannelEnd;
use crate::clock_report::ClockReport;
use crate::latency::latency_of;
use onfi_timing::Operation;
use std::alloc::{AllocError, Global};
use std::marker::Model;

/// What a run came to.
#[derive(Drop)]
pub struct Report {
    /// What each host got.
    pub got: [Got; 4],
    /// How each channel ended.
    pub ends: Vec<ChannelEnd>,
    /// Whether memory was refused on the way.
    pub short_of_memory: bool,
    /// What the run's clock showed, where it has one.
    pub clock: Option<ClockReport>,
    /// What the bus of each channel carried, where that is kept.
    pub(crate) traces: Vec<Option<Vec<u8>>>,
}

impl Model for Report {
    ghost use Rattle.std.specs.Prelude.{IfSome};
    ghost use Rattle.std.specs.List.{AllByRecursion as Each};
    ghost use Rattle.onfi_run.specs.Report.{ReportView};
    ghost use Rattle.onfi_record.specs.Recording.{IsTraceText};

    ghost Value = { ReportView };

    ghost view = { λ r. record { got = r.got; ends = r.ends.items; short_of_memory = r.short_of_memory; clock = r.clock } };

    ghost invariant = { λ r. Each (λ trace. IfSome trace (λ text. IsTraceText text.items)) r.traces.items };
}

impl Report {
    ghost use Rattle.onfi_run.specs.declared.clock_report.ClockReport.{ClockReport as AClockReport};
    ghost use Rattle.onfi_run.specs.Told.{IsClockOf};
    ghost use Rattle.onfi_record.specs.Recording.{IsTraceText};
    ghost use Rattle.std.specs.List.{AllByRecursion as Each};

    /// With what a clock showed: how busy the bus of each channel was; how long operations took is taken from the moments of
    /// the replies.
    ///
    /// # Errors
    /// Where memory was refused.
    pub(crate) fn with_clock(self, alloc: Global, buses: Vec<BusUse>) -> Result<Report, AllocError>
        requires none { self.clock ≡ None }
        requires buses { length buses.items ≡ length self.ends }
        ensures clock { IfOk result (λ report. (clock : AClockReport) × (report ≡ record self { clock = Some clock }) × IsClockOf self clock × (clock.buses.items ≡ buses.items)) }
    {
        let clock = ClockReport {
            buses,
            reads: latency_of(alloc, Operation::Read, &self.got)?,
            programs: latency_of(alloc, Operation::Program, &self.got)?,
            erases: latency_of(alloc, Operation::Erase, &self.got)?,
        };
        let Report {
            got,
            ends,
            short_of_memory,
            clock: _,
            traces,
        } = self;
        Ok(Report {
            got,
            ends,
            short_of_memory,
            clock: Some(clock),
            traces,
        })
    }

    /// What the bus of each channel carried, where that is kept.
    pub(crate) fn into_traces(self) -> Vec<Option<Vec<u8>>>
        ensures { Each (λ trace. IfSome trace (λ text. IsTraceText text.items)) result.items }
    {
        self.traces
    }
}

ghost use Rattle.std.specs.Prelude.{◌≡◌, [], replicate, slice_get, IfOk};
ghost use Rattle.onfi_chip.specs.Arrays as spec;

use crate::array_time::ArrayTime;
use crate::closer::Closer;
use crate::wait::Wait;
use onfi_timing::Spans;
use std::alloc::{AllocError, Global};

/// The array of a LUN.
#[derive(Clone, Copy, Debug)]
pub struct LunArray {
    /// How many of its operations have started; it stays at the greatest `u64`, which no listed number reaches.
    pub started: u64,
    /// How long the one that runs really takes, where that is listed.
    pub real: Option<Wait>,
}

/// The arrays of a simulated chip, and how long their operations really take.
#[derive(Debug, Drop)]
pub struct Arrays {
    times: Vec<ArrayTime>,
    luns: Vec<LunArray>,
}

impl Arrays {
    /// No operation has started, and none is listed.
    ///
    /// # Errors
    /// Where memory was refused.
    pub(crate) fn new(alloc: Global, lun_count: u8) -> Result<Arrays, AllocError>
        ensures times { IfOk result (λ arrays. arrays.times.items ≡ []) }
        ensures luns { IfOk result (λ arrays. arrays.luns.items ≡ replicate lun_count spec.unused) }
    {
        let unused = LunArray {
            started: 0,
            real: None,
        };
        Ok(Arrays {
            times: Vec::new(alloc),
            luns: vec![in alloc; unused; usize::from(lun_count)]?,
        })
    }

    /// The same with this list.
    pub(crate) fn with_times(self, times: Vec<ArrayTime>) -> Arrays
        ensures times { result.times.items ≡ times.items }
        ensures luns { result.luns.items ≡ self.luns.items }
    {
        Arrays {
            times,
            luns: self.luns,
        }
    }

    /// How long an operation really takes, where that is listed.
    fn listed_length(&self, lun: u8, number: u64) -> Option<u64>
        ensures { result ≡ spec.listed self.now.times.items lun number }
    {
        self.times
            .iter()
            .find(|time| time.lun == lun && u64::from(time.number) == number)
            .map(|time| time.length)
    }

    /// A command of a LUN's group starts at `now`: after the last one its array works.
    pub(crate) fn command(&mut self, closer: Closer, lun: u8, now: u64, spans: Spans)
        ensures luns { self.new.luns.items ≡ spec.behind closer self.old.times.items lun now spans self.old.luns.items }
        ensures times { self.new.times.items ≡ self.old.times.items }
    {
        match closer {
            Closer::More => {}
            Closer::Last => self.start(lun, now, spans),
        }
    }

    fn start(&mut self, lun: u8, now: u64, spans: Spans)
        ensures luns { self.new.luns.items ≡ spec.with_change lun (spec.one_started self.old.times.items lun now spans) self.old.luns.items }
        ensures times { self.new.times.items ≡ self.old.times.items }
    {
        let at = usize::from(lun);
        if at >= self.luns.len() {
            return;
        }
        let started = self.luns[at].started;
        let real = real_wait(now, spans, self.listed_length(lun, started));
        self.luns[at] = LunArray {
            started: started.saturating_add(1),
            real,
        };
    }

    /// The array of a LUN has done its work.
    pub(crate) fn end(&mut self, lun: u8)
        ensures luns { self.new.luns.items ≡ spec.with_change lun spec.one_over self.old.luns.items }
        ensures times { self.new.times.items ≡ self.old.times.items }
    {
        let at = usize::from(lun);
        if at < self.luns.len() {
            self.luns[at].real = None;
        }
    }

    /// Whether the array of a LUN is done at `now` by its real time.
    pub(crate) fn is_done(&self, lun: u8, now: u64) -> bool
        ensures { result ≡ spec.is_done_at now (slice_get self.now.luns.items lun) }
    {
        match self.luns.get(usize::from(lun)) {
            Some(array) => array.is_done(now),
            None => false,
        }
    }

    /// The next moment after `now` at which an array is done by its real time.
    pub(crate) fn next_done(&self, now: u64) -> Option<u64>
        ensures { result ≡ spec.next_done now self.now.luns.items }
    {
        self.luns
            .iter()
            .filter_map(|array| array.end_after(now))
            .min()
    }
}

impl LunArray {
    /// When the operation that runs is done by its real time, where that is after `now`.
    fn end_after(&self, now: u64) -> Option<u64>
        ensures { result ≡ spec.done_behind now self.now }
    {
        self.real?.end_after(now)
    }

    /// Whether the operation that runs is done at `now` by its real time.
    fn is_done(&self, now: u64) -> bool
        ensures { result ≡ spec.is_done now self.now }
    {
        match self.real {
            Some(wait) => wait.is_over(now),
            None => false,
        }
    }
}

/// The wait after a command that starts at `now`, where the array really takes that long.
fn real_wait(now: u64, spans: Spans, listed: Option<u64>) -> Option<Wait>
    ensures { result ≡ spec.real_wait now spans listed }
{
    match listed {
        Some(length) => Some(Wait {
            from: now,
            length: spans.cmd + spans.array.min(length),
        }),
        None => None,
    }
}

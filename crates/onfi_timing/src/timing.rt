ghost use Rattle.std.specs.Prelude.{◌≡◌, ◌≤◌, ◌-◌, ◌^◌, ◌↔◌, Some, None, length, MatchResult, IfOk, IsErrOf};
ghost use Rattle.onfi_timing.specs.Sectors.{AreAlike, least_post, lesser_post};

use crate::fault::SheetFault;
use crate::kind::Kind;
use crate::lengths::{of_erases, of_programs, of_reads};
use crate::operation::Operation;
use crate::sheet::Sheet;
use crate::spans::{SpanFault, Spans};
use crate::strobe_fault::StrobeFault;
use crate::strobe_values::StrobeValues;
use crate::strobed::{erases_by_strobes, programs_by_strobes, reads_by_strobes, values_beside};
use crate::strobes::Strobes;
use crate::values::Values;
use onfi_addr::Geometry;
use onfi_param::ParamPage;

/// The phase lengths of each kind, in ns.
#[derive(Clone, Copy, Debug, PartialEq, Eq)]
pub struct Timing {
    pub read: Spans,
    pub program: Spans,
    pub erase: Spans,
    // Of reads of one to seven sectors, where they are stated.
    sectors: [Option<Spans>; 7],
    // The least post of all that are stated for reads.
    least_read: u64,
    ghost long: { length sectors ≡ 7 },
    ghost alike: { AreAlike read sectors },
    ghost least: { least_read ≡ least_post read.post sectors },
    ghost low: { least_read ≤ read.post },
}

// The least of a post and those that are stated.
#[tactic(auto, unfolding(crate::specs::Sectors::least_post))]
fn least_of(post: u64, sectors: &[Option<Spans>; 7]) -> u64
    ensures value { result ≡ least_post post sectors.now }
    ensures low { result ≤ post }
{
    let mut least = post;
    for spans in sectors {
        least = lower_post(least, spans);
    }
    least
}

// The lesser of a post and the one that is stated.
fn lower_post(post: u64, spans: &Option<Spans>) -> u64
    ensures { result ≡ lesser_post post spans.now }
{
    match spans {
        Some(spans) => post.min(spans.post),
        None => post,
    }
}

impl Timing {
    ghost use Rattle.onfi_timing.specs.Kinds.{StatesNone, StatesToo, least_rest, spans_of, stated, states};
    ghost use Rattle.onfi_timing.specs.Strobes.{IsStrobedTiming, IsStrobedFault};
    ghost use Rattle.onfi_timing.specs.Table.{IsTiming, IsTimingFault};

    /// The timing of a channel from the lengths of each kind.
    pub fn new(read: Spans, program: Spans, erase: Spans) -> Timing
        ensures read { result.read ≡ read }
        ensures program { result.program ≡ program }
        ensures erase { result.erase ≡ erase }
        ensures pages { StatesNone result }
    {
        Timing {
            read,
            program,
            erase,
            sectors: [None; 7],
            least_read: read.post,
        }
    }

    /// The timing of a device by its parameter page, its geometry and a timing sheet.
    ///
    /// The page gives tR, tPROG and tBERS (microseconds, the maxima) and tCCS (ns), the sheet the rest. No post of sectors is
    /// stated.
    ///
    /// # Errors
    /// `Missing` with the first parameter that the sheet doesn't give; else `ZeroCycle` where tWC or tRC is 0.
    pub fn of(page: &ParamPage, geometry: &Geometry, sheet: &Sheet) -> Result<Timing, SheetFault>
        ensures table { MatchResult result (λ timing. IsTiming page.now geometry.now sheet.now timing) (λ fault. IsTimingFault sheet.now fault) }
        ensures pages { IfOk result (λ timing. StatesNone timing) }
    {
        let values = match Values::of(sheet) {
            Ok(values) => values,
            Err(parameter) => return Err(SheetFault::Missing(parameter)),
        };
        if values.t_wc == 0 || values.t_rc == 0 {
            return Err(SheetFault::ZeroCycle);
        }
        Ok(Timing::new(
            of_reads(page, geometry, &values),
            of_programs(page, geometry, &values),
            of_erases(page, geometry, &values),
        ))
    }

    /// The timing of a device whose data and status bytes go by strobes, NV-DDR2 or NV-DDR3, two bytes in a cycle (ONFI 4.2,
    /// data interfaces).
    ///
    /// The page gives tR, tPROG and tBERS (microseconds, the maxima) and tCCS (ns), the strobes how bytes go (ps), the sheet
    /// the rest; tRC of the sheet is not looked at. Each length is its sum in ps, rounded up to whole ns once. No post of
    /// sectors is stated.
    ///
    /// # Errors
    /// `Sheet(Missing)` with the first parameter but tRC that the sheet doesn't give; else `Sheet(ZeroCycle)` where tWC is
    /// 0; else `Missing` with the first parameter that the strobes don't give; else `ZeroCycle` where their tRC or tDSC is 0.
    pub fn of_strobes(
        page: &ParamPage,
        geometry: &Geometry,
        sheet: &Sheet,
        strobes: &Strobes,
    ) -> Result<Timing, StrobeFault>
        ensures table { MatchResult result (λ timing. IsStrobedTiming page.now geometry.now sheet.now strobes.now timing) (λ fault. IsStrobedFault sheet.now strobes.now fault) }
        ensures pages { IfOk result (λ timing. StatesNone timing) }
    {
        let values = match values_beside(sheet) {
            Ok(values) => values,
            Err(fault) => return Err(StrobeFault::Sheet(fault)),
        };
        let strobes = match StrobeValues::of(strobes) {
            Ok(strobes) => strobes,
            Err(strobe) => return Err(StrobeFault::Missing(strobe)),
        };
        if strobes.t_rc == 0 || strobes.t_dsc == 0 {
            return Err(StrobeFault::ZeroCycle);
        }
        Ok(Timing::new(
            reads_by_strobes(page, geometry, &values, &strobes),
            programs_by_strobes(page, geometry, &values, &strobes),
            erases_by_strobes(page, geometry, &values, &strobes),
        ))
    }

    /// This timing with a post for reads of `count` sectors, in ns; all else of them is as for a read of a page.
    ///
    /// # Errors
    /// `Zero` where `post` is 0, `TooLong` where it is 2^50 or more.
    pub fn with_sectors(self, count: u8, post: u64) -> Result<Timing, SpanFault>
        requires some { 1 ≤ count }
        requires few { count ≤ 7 }
        ensures ok { IfOk result (λ timing. StatesToo self timing count post) }
        ensures zero { IsErrOf result SpanFault.Zero ↔ (post ≡ 0) }
        ensures too_long { IsErrOf result SpanFault.TooLong ↔ (2 ^ 50 ≤ post) }
    {
        let spans = Spans::new(self.read.cmd, self.read.gap, self.read.array, post)?;
        let mut sectors = self.sectors;
        sectors[usize::from(count) - 1] = Some(spans);
        Ok(Timing {
            read: self.read,
            program: self.program,
            erase: self.erase,
            sectors,
            least_read: least_of(self.read.post, &sectors),
        })
    }

    /// Whether lengths are stated for a kind: for reads of some sectors by [`Timing::with_sectors`], for all else always.
    pub fn states(&self, kind: Kind) -> bool
        ensures { result ≡ states self.now kind }
    {
        match kind.sectors() {
            0 => true,
            count => self.spans_of_sectors(count).is_some(),
        }
    }

    // What is stated of reads of that many sectors.
    fn spans_of_sectors(&self, count: u8) -> Option<Spans>
        requires { 1 ≤ count }
        ensures { result ≡ stated self.now count }
    {
        self.sectors.get(usize::from(count) - 1).copied().flatten()
    }

    /// The lengths of a kind. A read of sectors that are not stated has those of a read of a page.
    pub fn spans(&self, kind: Kind) -> Spans
        ensures { result ≡ spans_of self.now kind }
    {
        match kind {
            Kind::Read => self.read,
            Kind::ReadSectors { count: 0, .. } => self.read,
            Kind::ReadSectors { count, .. } => self.spans_of_sectors(count).unwrap_or(self.read),
            Kind::Program => self.program,
            Kind::Erase => self.erase,
        }
    }

    /// The least time in ns that an operation takes after its last command: its array and its shortest post that is stated.
    pub fn least_rest(&self, operation: Operation) -> u64
        ensures { result ≡ least_rest self.now operation }
    {
        match operation {
            Operation::Read => self.read.array + self.least_read,
            Operation::Program => self.program.array + self.program.post,
            Operation::Erase => self.erase.array + self.erase.post,
        }
    }
}

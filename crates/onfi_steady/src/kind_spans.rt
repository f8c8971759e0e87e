//! The lengths of each kind, one after another.
ghost use Rattle.std.specs.Prelude.{◌≡◌, ◌<◌, length};

use onfi_timing::{Kind, Spans, Timing};

/// The lengths of each kind, in ns: of a read of a page, a program, an erase, and of reads of one to seven sectors.
#[repr(C)]
#[derive(Clone, Copy)]
pub struct KindSpans {
    kind: [Spans; 10],
    ghost long: { length kind ≡ 10 },
}

impl KindSpans {
    ghost use Rattle.onfi_timing.specs.declared.timing.Timing.{Timing as AnyTiming};
    ghost use Rattle.onfi_timing.specs.Kinds.{spans_of};
    ghost use Rattle.onfi_steady.specs.Slots.{AreSpansOf, place_of, place_of_count};

    /// Those of a timing.
    pub fn of(timing: &Timing) -> KindSpans
        ensures { AreSpansOf timing.now result }
    {
        KindSpans {
            kind: [
                timing.spans(Kind::Read),
                timing.spans(Kind::Program),
                timing.spans(Kind::Erase),
                timing.spans(sectors(1)),
                timing.spans(sectors(2)),
                timing.spans(sectors(3)),
                timing.spans(sectors(4)),
                timing.spans(sectors(5)),
                timing.spans(sectors(6)),
                timing.spans(sectors(7)),
            ],
        }
    }

    /// Those of a kind.
    pub fn of_kind(&self, kind: Kind) -> Spans
        ensures { (timing : AnyTiming) → AreSpansOf timing self.now → result ≡ spans_of timing kind }
    {
        self.kind[Self::place_of(kind)]
    }

    // Where those of a kind stand.
    fn place_of(kind: Kind) -> usize
        ensures place { result ≡ place_of kind }
        ensures within { result < 10 }
    {
        match kind {
            Kind::Read => 0,
            Kind::Program => 1,
            Kind::Erase => 2,
            Kind::ReadSectors { count, .. } => Self::place_of_count(count),
        }
    }

    // .. those of reads of so many sectors
    fn place_of_count(count: u8) -> usize
        ensures place { result ≡ place_of_count count }
        ensures within { result < 10 }
    {
        if count > 7 || count == 0 {
            return 0;
        }
        usize::from(count) + 2
    }
}

fn sectors(count: u8) -> Kind
    ensures { result ≡ Kind.ReadSectors 0 count }
{
    Kind::ReadSectors { first: 0, count }
}

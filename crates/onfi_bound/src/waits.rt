//! The waits that the wants of a LUN take, whatever their groups.

ghost use Rattle.std.specs.Prelude.{◌≡◌, ◌+◌, ◌^◌, ◌<◌, ◌≤◌, length, take};
ghost use Rattle.std.specs.List.{AllByRecursion as Each};
ghost use Rattle.onfi_timing.specs.Kinds.{operation_of};
ghost use Rattle.onfi_problem.specs.Problem.{IsWant};
ghost use Rattle.onfi_bound.specs.Bounds.{on_lun, page_class, above_class, in_class, wants_work};
ghost use Rattle.onfi_bound.specs.Parts.{plane_counts, added_wait};

use onfi_group::Rules;
use onfi_request::Want;
use onfi_timing::{Operation, Spans, Timing};

/// What wants share that might run in one group.
#[derive(Clone, Copy)]
struct Class {
    operation: Operation,
    /// The page; all erases count as one page.
    page: u16,
    /// Where groups are strict, the block number above the plane bits.
    above: u16,
}

impl Class {
    /// The class of a want.
    fn of(rules: &Rules, want: &Want) -> Class
        ensures operation { result.operation ≡ operation_of want.now.kind }
        ensures page { result.page ≡ page_class want.now }
        ensures above { result.above ≡ above_class rules.now want.now }
        ensures page_fits { page_class want.now < 2 ^ 16 }
        ensures above_fits { above_class rules.now want.now < 2 ^ 16 }
    {
        let (page, block) = (want.page, want.block);
        let operation = want.kind.operation();
        Class {
            operation,
            page: if operation == Operation::Erase {
                0
            } else {
                page
            },
            above: if rules.strict {
                block >> rules.plane_bits
            } else {
                0
            },
        }
    }

    /// Whether a want is of this class.
    fn has(&self, rules: &Rules, want: &Want) -> bool
        ensures { result ≡ in_class rules.now self.now.operation self.now.page self.now.above want.now }
    {
        let class = Class::of(rules, want);
        self.operation == class.operation && class.page == self.page && class.above == self.above
    }
}

/// How long the wants of a LUN take at least, in ns: their commands, posts and waits.
pub fn work_of_wants(timing: &Timing, rules: &Rules, wants: &[Want], lun: u8) -> u64
    requires wants { Each IsWant wants.now }
    requires few { length wants.now ≤ 8 }
    ensures value { result ≡ wants_work timing.now rules.now (on_lun lun wants.now) }
    ensures short { result ≤ 2 ^ 55 }
{
    let mut work = 0;
    for (i, want) in wants.iter().enumerate() {
        if want.lun == lun {
            let spans = timing.spans(want.kind);
            work += spans.cmd + spans.post + wait_of(&spans, rules, &wants[..i], want);
        }
    }
    work
}

/// The wait that a want adds to those of its LUN before it, in ns.
pub fn wait_of(spans: &Spans, rules: &Rules, before: &[Want], want: &Want) -> u64
    requires wants { Each IsWant before.now }
    requires want { IsWant want.now }
    requires few { length before.now ≤ 8 }
    ensures value { result ≡ added_wait spans.now rules.now (on_lun want.now.lun before.now) want.now }
    ensures short { result < 2 ^ 50 }
    ensures page_fits { page_class want.now < 2 ^ 16 }
    ensures above_fits { above_class rules.now want.now < 2 ^ 16 }
{
    let counts = counts_of_planes(rules, before, want);
    let deepest = counts[0].max(counts[1]).max(counts[2].max(counts[3]));
    if counts[want.plane as usize] == deepest {
        spans.array
    } else {
        spans.gap.min(spans.array)
    }
}

/// How many of a want's class on its LUN are on each plane.
fn counts_of_planes(rules: &Rules, before: &[Want], want: &Want) -> [u8; 4]
    requires wants { Each IsWant before.now }
    requires few { length before.now ≤ 8 }
    ensures value { result ≡ plane_counts rules.now want.now (on_lun want.now.lun before.now) }
    ensures page_fits { page_class want.now < 2 ^ 16 }
    ensures above_fits { above_class rules.now want.now < 2 ^ 16 }
{
    let class = Class::of(rules, want);
    let mut counts = [0; 4];
    for other in before {
        if other.lun == want.lun && class.has(rules, other) {
            counts[other.plane as usize] += 1;
        }
    }
    counts
}

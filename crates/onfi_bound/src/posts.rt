//! When the first post of a problem may start.

ghost use Rattle.std.specs.Prelude.{◌≡◌, ◌+◌, ◌^◌, ◌<◌, ◌≤◌, length, map, IfSome};
ghost use Rattle.std.specs.List.{AllByRecursion as Each};
ghost use Rattle.onfi_timing.specs.Kinds.{spans_of};
ghost use Rattle.onfi_bound.specs.Bounds.{on_lun, least, least_with};
ghost use Rattle.onfi_bound.specs.Parts.{chain_to_post, chain_starts, IsShort};

use crate::chain::Chain;
use onfi_request::Want;
use onfi_timing::Timing;

/// The least first post start of the LUNs that have something left, in ns.
pub fn first_post(timing: &Timing, bus_free: u64, chains: &[Chain], wants: &[Want]) -> Option<u64>
    requires bus_free { bus_free < 2 ^ 62 }
    requires short { Each IsShort chains.now }
    requires few { length chains.now ≤ 8 }
    ensures value { result ≡ least (chain_starts timing.now bus_free wants.now 0 chains.now) }
{
    let mut first = None;
    for (lun, chain) in chains.iter().enumerate() {
        if let Some(rest) = to_post(timing, wants, lun as u8, chain) {
            first = Some(least_of(bus_free.max(chain.from) + rest, first));
        }
    }
    first
}

/// How long a LUN takes from when it may go on to its first post, in ns; None where it has nothing left.
fn to_post(timing: &Timing, wants: &[Want], lun: u8, chain: &Chain) -> Option<u64>
    requires short { IsShort chain.now }
    ensures value { result ≡ chain_to_post timing.now (on_lun lun wants.now) chain.now }
    ensures short { IfSome result (λ rest. rest < 2 ^ 54) }
{
    if chain.running {
        Some(chain.commands + chain.waits)
    } else {
        first_command(timing, wants, lun)
    }
}

/// The least command and array of the wants on a LUN, in ns.
pub fn first_command(timing: &Timing, wants: &[Want], lun: u8) -> Option<u64>
    ensures value { result ≡ least (map (λ w. (spans_of timing.now w.kind).cmd + (spans_of timing.now w.kind).array) (on_lun lun wants.now)) }
    ensures short { IfSome result (λ rest. rest < 2 ^ 51) }
{
    let mut first = None;
    for want in wants {
        if want.lun == lun {
            let spans = timing.spans(want.kind);
            first = Some(least_of(spans.cmd + spans.array, first));
        }
    }
    first
}

/// The lesser of a number and another, where there is another.
pub fn least_of(x: u64, other: Option<u64>) -> u64
    ensures { result ≡ least_with x other }
{
    match other {
        Some(y) => x.min(y),
        None => x,
    }
}

//! Whether parts are a problem.

ghost use Rattle.std.specs.Prelude.{◌≡◌};
ghost use Rattle.onfi_problem.specs.Faults.{TellsFault};
ghost use Rattle.onfi_problem.specs.Kept.{problem_of};

use crate::checks::{has_lengths, is_problem, is_small};
use crate::fault::ProblemFault;
use crate::horizon::reaches_limit;
use crate::lun_state::LunState;
use onfi_group::Rules;
use onfi_request::Want;
use onfi_timing::Timing;

/// Why [`Problem::new`](crate::Problem::new) would refuse these parts, `Memory` aside; None where it would not. This takes
/// no memory and makes nothing.
pub fn find_fault(
    timing: &Timing,
    rules: &Rules,
    bus_free: u64,
    luns: &[LunState],
    wants: &[Want],
) -> Option<ProblemFault>
    ensures { TellsFault (problem_of timing.now rules.now bus_free luns.now wants.now) result }
{
    if !is_small(luns, wants) {
        return Some(ProblemFault::TooMany);
    }
    if !is_problem(rules, luns, wants) {
        return Some(ProblemFault::BadLun);
    }
    if !has_lengths(timing, luns, wants) {
        return Some(ProblemFault::NoLengths);
    }
    if reaches_limit(timing, bus_free, luns, wants) {
        return Some(ProblemFault::Clock);
    }
    None
}

//! Plans, for C.
ghost use Rattle.onfi_calls.specs.Plan as plan_spec;

use onfi_calls::{PlainChannel, PlainOptions, PlainPlanned, PlainWant};
use std::alloc::Global;

/// Is [`onfi_plan`](onfi_calls::onfi_plan) for C.
#[unsafe(no_mangle)]
pub extern "C" fn onfi_plan(
    alloc: Global,
    channel: &PlainChannel,
    wants: &[PlainWant],
    options: &PlainOptions,
    plan: &mut PlainPlanned,
    certificate: &mut [u8],
    bytes: &mut usize,
) -> u32
    ensures { plan_spec.GivesPlan channel.now wants.now options.now plan.old plan.new certificate.old certificate.new bytes.new result }
{
    onfi_calls::onfi_plan(alloc, channel, wants, options, plan, certificate, bytes)
}

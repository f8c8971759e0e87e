//! Judgements of plans, for C.
ghost use Rattle.onfi_calls.specs.Broken as broken_spec;
ghost use Rattle.onfi_calls.specs.Check as check_spec;

use onfi_calls::{PlainBroken, PlainChannel, PlainSchedule, PlainVerdict, PlainWant};
use std::alloc::Global;

/// Is [`onfi_check`](onfi_calls::onfi_check) for C.
#[unsafe(no_mangle)]
pub extern "C" fn onfi_check(
    alloc: Global,
    channel: &PlainChannel,
    wants: &[PlainWant],
    schedule: &PlainSchedule,
    below: u64,
    certificate: &[u8],
    verdict: &mut PlainVerdict,
) -> u32
    ensures { check_spec.GivesVerdict channel.now wants.now schedule.now below certificate.now verdict.new result }
{
    onfi_calls::onfi_check(alloc, channel, wants, schedule, below, certificate, verdict)
}

/// Is [`onfi_breach`](onfi_calls::onfi_breach) for C.
#[unsafe(no_mangle)]
pub extern "C" fn onfi_breach(
    alloc: Global,
    channel: &PlainChannel,
    wants: &[PlainWant],
    schedule: &PlainSchedule,
    broken: &mut PlainBroken,
) -> u32
    ensures { broken_spec.GivesBreach channel.now wants.now schedule.now broken.old broken.new result }
{
    onfi_calls::onfi_breach(alloc, channel, wants, schedule, broken)
}

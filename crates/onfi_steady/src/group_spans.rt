//! How long the phases of a group take that is kept as numbers, and the waits between them.
ghost use Rattle.std.specs.Prelude.{◌≡◌, ◌<◌, ◌≤◌, ◌^◌, length};
ghost use Rattle.onfi_timing.specs.declared.timing.Timing.{Timing as AnyTiming};
ghost use Rattle.onfi_timing.specs.Phases.{phase_length, wait_before};
ghost use Rattle.onfi_group.specs.Group.{group_spans};
ghost use Rattle.onfi_steady.specs.Slots.{AreSpansOf, wants_in};

use crate::kind_spans::KindSpans;
use crate::slot::Slot;

/// The length of that phase, in ns: their commands first, then the post of each. Past the last phase it is 0.
pub fn phase_length(spans: &KindSpans, members: &[Slot], phase: u8) -> u64
    ensures length { (timing : AnyTiming) → AreSpansOf timing spans.now →
        result ≡ phase_length (group_spans timing (wants_in members.now)) (length (wants_in members.now)) phase }
    ensures short { result < 2 ^ 50 }
{
    let phase = usize::from(phase);
    if phase < members.len() {
        return spans.of_kind(members[0].kind()).cmd;
    }
    match members.get(phase - members.len()) {
        Some(member) => spans.of_kind(member.kind()).post,
        None => 0,
    }
}

/// The wait between that phase and the phase before it, in ns: the gap between commands, the array before the first post, none
/// between posts.
pub fn wait_before(spans: &KindSpans, members: &[Slot], phase: u8) -> u64
    requires { 1 ≤ length members.now }
    ensures wait { (timing : AnyTiming) → AreSpansOf timing spans.now →
        result ≡ wait_before (group_spans timing (wants_in members.now)) (length (wants_in members.now)) phase }
    ensures short { result < 2 ^ 50 }
{
    let phase = usize::from(phase);
    let shared = spans.of_kind(members[0].kind());
    if phase < members.len() {
        shared.gap
    } else if phase == members.len() {
        shared.array
    } else {
        0
    }
}

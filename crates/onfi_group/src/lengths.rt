//! How long the phases of a group take, and the waits between them.

ghost use Rattle.std.specs.Prelude.{◌≡◌, ◌*◌, ◌^◌, ◌<◌, ◌≤◌, length};
ghost use Rattle.onfi_timing.specs.Phases.{phase_length, wait_before, posts_from};
ghost use Rattle.onfi_group.specs.Group.{group_spans};

use onfi_request::Want;
use onfi_timing::Timing;

/// The length of phase number `phase` of the members' group, in ns: their commands first, then the post of each, below 2^50
/// (ONFI 4.2, multi-plane operations). Past the last phase it is 0.
pub fn phase_length(timing: &Timing, members: &[Want], phase: usize) -> u64
    ensures length { result ≡ phase_length (group_spans timing.now members.now) (length members.now) phase }
    ensures some { phase < 2 * length members.now → 1 ≤ result }
    ensures short { result < 2 ^ 50 }
{
    if phase < members.len() {
        return timing.spans(members[0].kind).cmd;
    }
    match members.get(phase - members.len()) {
        Some(member) => timing.spans(member.kind).post,
        None => 0,
    }
}

/// The wait between phase number `phase` of the members' group and the phase before it, in ns, below 2^50: the gap between
/// commands, the array before the first post, none between posts. No phase goes before number 0: the answer for it, the gap,
/// means nothing.
pub fn wait_before(timing: &Timing, members: &[Want], phase: usize) -> u64
    requires { 1 ≤ length members.now }
    ensures wait { result ≡ wait_before (group_spans timing.now members.now) (length members.now) phase }
    ensures short { result < 2 ^ 50 }
{
    let shared = timing.spans(members[0].kind);
    if phase < members.len() {
        shared.gap
    } else if phase == members.len() {
        shared.array
    } else {
        0
    }
}

/// The posts of the members' group from phase number `phase` on, in ns: all of them, where that is a command.
pub fn posts_from(timing: &Timing, members: &[Want], phase: usize) -> u64
    requires { length members.now ≤ 4 }
    ensures posts { result ≡ posts_from (group_spans timing.now members.now) (length members.now) phase }
    ensures short { result ≤ 4 * 2 ^ 50 }
{
    let mut posts = 0;
    for at in phase.saturating_sub(members.len())..members.len() {
        posts += timing.spans(members[at].kind).post;
    }
    posts
}

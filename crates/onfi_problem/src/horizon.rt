//! By when a problem is surely done.

ghost use Rattle.std.specs.Prelude.{◌≡◌, ◌+◌, ◌*◌, ◌^◌, ◌<◌, ◌≤◌, ◌↔◌, IsTrue, length};
ghost use Rattle.onfi_group.specs.Words.{total};
ghost use Rattle.onfi_group.specs.Group.{group_spans};
ghost use Rattle.onfi_problem.specs.Left.{chain_time, want_time, latest_wait, waits_left};
ghost use Rattle.onfi_problem.specs.Checks.{time_of};

use crate::lun_state::LunState;
use onfi_group::{Group, posts_from};
use onfi_request::Want;
use onfi_timing::Timing;

/// Times of a problem stay below this many ns.
const LIMIT: u64 = 1 << 62;

// Whether the sum of all times reaches the limit.
pub fn reaches_limit(timing: &Timing, bus_free: u64, luns: &[LunState], wants: &[Want]) -> bool
    requires luns { length luns.now ≤ 8 }
    requires wants { length wants.now ≤ 8 }
    ensures { let chains = total (chain_time timing.now) luns.now in
        let wants_left = total (want_time timing.now) wants.now in
        IsTrue result ↔ (2 ^ 62 ≤ latest_wait bus_free luns.now + chains + wants_left) }
{
    let latest = latest_wait(bus_free, luns);
    latest >= LIMIT || latest + chains_time(timing, luns) + wants_time(timing, wants) >= LIMIT
}

fn latest_wait(bus_free: u64, luns: &[LunState]) -> u64
    ensures { result ≡ latest_wait bus_free luns.now }
{
    let mut latest = bus_free;
    for state in luns {
        latest = latest.max(time_of(state));
    }
    latest
}

fn time_of(state: &LunState) -> u64
    ensures { result ≡ time_of state.now }
{
    match state {
        LunState::Free { since } => *since,
        LunState::Running { ready, .. } => *ready,
    }
}

fn chains_time(timing: &Timing, luns: &[LunState]) -> u64
    requires { length luns.now ≤ 8 }
    ensures value { result ≡ total (chain_time timing.now) luns.now }
    ensures small { result < 2 ^ 60 }
{
    let mut total = 0;
    for state in luns {
        total += chain_time(timing, state);
    }
    total
}

fn chain_time(timing: &Timing, state: &LunState) -> u64
    ensures value { result ≡ chain_time timing.now state.now }
    ensures small { result ≤ 12 * 2 ^ 50 }
{
    match state {
        LunState::Free { .. } => 0,
        LunState::Running { group, next, .. } => {
            let spans = timing.spans(group.kind());
            let commands = group.len().saturating_sub(*next as usize) as u64;
            let posts = posts_from(timing, group.members(), *next as usize);
            commands * spans.cmd + posts + waits_left(timing, group, *next)
        }
    }
}

// The waits after phase `next` of a group.
fn waits_left(timing: &Timing, group: &Group, next: u8) -> u64
    ensures value { result ≡ waits_left (group_spans timing.now group.now) (length group.now) next }
    ensures small { result ≤ 4 * 2 ^ 50 }
{
    let spans = timing.spans(group.kind());
    let (members, next) = (group.len() as u64, next as u64);
    if next < members {
        (members - 1 - next) * spans.gap + spans.array
    } else {
        0
    }
}

fn wants_time(timing: &Timing, wants: &[Want]) -> u64
    requires { length wants.now ≤ 8 }
    ensures value { result ≡ total (want_time timing.now) wants.now }
    ensures small { result < 2 ^ 60 }
{
    let mut total = 0;
    for want in wants {
        total += want_time(timing, want);
    }
    total
}

fn want_time(timing: &Timing, want: &Want) -> u64
    ensures value { result ≡ want_time timing.now want.now }
    ensures small { result ≤ 3 * 2 ^ 50 }
{
    let spans = timing.spans(want.kind);
    spans.cmd + spans.gap.max(spans.array) + spans.post
}

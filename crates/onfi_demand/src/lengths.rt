//! Lengths of operations, whatever group runs.

ghost use Rattle.std.specs.Prelude.{◌≡◌, ℕ, ◌+◌, ◌*◌, ◌^◌, ◌<◌, ◌≤◌, [], length, slice_index, take};
ghost use Rattle.onfi_timing.specs.Kinds.{operation_spans};
ghost use Rattle.onfi_problem.specs.Left.{commands_left, waits_left};
ghost use Rattle.onfi_demand.specs.Remaining.{post_of, posts_count, posts_left, with_posts};

use onfi_timing::{Kind, Operation, Spans, Timing};

// The lengths of an operation on whole pages.
pub(crate) fn operation_spans(timing: &Timing, operation: Operation) -> Spans
    ensures { result ≡ operation_spans timing.now operation }
{
    match operation {
        Operation::Read => timing.read,
        Operation::Program => timing.program,
        Operation::Erase => timing.erase,
    }
}

// How long a post of an operation takes, where a read puts out that number of sectors.
fn post_of(timing: &Timing, operation: Operation, sectors: u8) -> u64
    ensures post { result ≡ post_of timing.now operation sectors }
    ensures short { result < 2 ^ 50 }
{
    let kind = match operation {
        Operation::Read => Kind::ReadSectors {
            first: 0,
            count: sectors,
        },
        Operation::Program => Kind::Program,
        Operation::Erase => Kind::Erase,
    };
    timing.spans(kind).post
}

// The posts of members of which phase `next` comes next, where those that are left put out these sectors.
pub(crate) fn posts_of(
    timing: &Timing,
    operation: Operation,
    members: u8,
    next: u8,
    sectors: &[u8; 4],
) -> [u64; 4]
    requires { members ≤ 4 }
    ensures posts { take members result ≡ posts_left timing.now operation members (take (posts_count members next) sectors.now) }
    ensures long { length result ≡ 4 }
    ensures short { (i : ℕ) → slice_index result i < 2 ^ 50 }
{
    let mut posts = [0; 4];
    let over = next.saturating_sub(members) as usize;
    for at in over..members as usize {
        posts[at] = post_of(timing, operation, sectors[at - over]);
    }
    posts
}

/// How long a running group takes to its first post, in ns.
pub(crate) fn rest_to_post(spans: &Spans, members: u8, next: u8) -> u64
    requires { members ≤ 4 }
    ensures value { result ≡ commands_left members next * spans.now.cmd + waits_left (with_posts spans.now []) members next }
    ensures small { result ≤ 2 ^ 54 }
{
    if next < members {
        let (members, next) = (members as u64, next as u64);
        (members - next) * spans.cmd + ((members - 1 - next) * spans.gap + spans.array)
    } else {
        0
    }
}

//! How long the phases of a group take of which only the operation, the number of members and the sectors of the posts that
//! are left are known.

ghost use Rattle.std.specs.Prelude.{◌≡◌, ℕ, ◌*◌, ◌^◌, ◌<◌, ◌≤◌, length, slice_index, take};
ghost use Rattle.std.specs.List.{AllByRecursion as Each};

use crate::lengths::{operation_spans, posts_of, rest_to_post};
use onfi_timing::{Operation, Spans, Timing};

/// The lengths of what is left of a group, in ns.
#[derive(Clone, Copy, Debug, PartialEq, Eq)]
pub struct GroupLengths {
    // What its members share; the post in it is not looked at.
    shared: Spans,
    pub members: u8,
    // The post of each member; 0 where it is over, and after the last member.
    posts: [u64; 4],
    pub ghost few: { members ≤ 4 },
    pub ghost long: { length posts ≡ 4 },
    pub ghost short: { (i : ℕ) → slice_index posts i < 2 ^ 50 },
}

impl GroupLengths {
    ghost use Rattle.onfi_timing.specs.Phases.{phase_length, wait_before, posts_from};
    ghost use Rattle.onfi_demand.specs.Remaining.{lengths_left, lengths_of, posts_count};
    ghost use Rattle.onfi_demand.specs.Window.{chain_from};

    /// The lengths of a group of one to four members of which phase `next` comes next, commands first, then posts, and of which
    /// the posts that are left put out these sectors: those of [`crate::LunLeft::Rest`].
    pub fn of(
        timing: &Timing,
        operation: Operation,
        members: u8,
        next: u8,
        sectors: &[u8; 4],
    ) -> GroupLengths
        requires { members ≤ 4 }
        ensures lengths { lengths_of result ≡ lengths_left timing.now operation members (take (posts_count members next) sectors.now) }
        ensures members { result.members ≡ members }
    {
        GroupLengths {
            shared: operation_spans(timing, operation),
            members,
            posts: posts_of(timing, operation, members, next, sectors),
        }
    }

    /// The post of each member, in ns; 0 where it is over.
    pub fn posts(&self) -> &[u64]
        ensures posts { result.now ≡ (lengths_of self.now).posts }
        ensures short { Each (λ t. t < 2 ^ 50) result.now }
    {
        &self.posts[..self.members as usize]
    }

    /// The length of phase number `phase`, in ns, below 2^50. Of a post that is over it is 0.
    pub fn phase_length(&self, phase: usize) -> u64
        requires { phase < 2 * self.now.members }
        ensures length { result ≡ phase_length (lengths_of self.now) self.now.members phase }
        ensures short { result < 2 ^ 50 }
    {
        let members = self.members as usize;
        if phase < members {
            self.shared.cmd
        } else {
            self.posts[phase - members]
        }
    }

    /// The wait between phase number `phase` and the phase before it, in ns, below 2^50: the gap between commands, the array
    /// before the first post, none between posts.
    pub fn wait_before(&self, phase: usize) -> u64
        ensures wait { result ≡ wait_before (lengths_of self.now) self.now.members phase }
        ensures short { result < 2 ^ 50 }
    {
        let members = self.members as usize;
        if phase < members {
            self.shared.gap
        } else if phase == members {
            self.shared.array
        } else {
            0
        }
    }

    /// The posts from phase number `next` on, in ns.
    pub fn posts_from(&self, next: u8) -> u64
        ensures value { result ≡ posts_from (lengths_of self.now) self.now.members next }
        ensures small { result ≤ 2 ^ 53 }
    {
        let mut posts = 0;
        for at in next.saturating_sub(self.members)..self.members {
            posts += self.posts[at as usize];
        }
        posts
    }

    /// What is left from phase number `next` on, with its waits, in ns.
    pub fn chain_from(&self, next: u8) -> u64
        ensures value { result ≡ chain_from (lengths_of self.now) self.now.members next }
        ensures small { result ≤ 2 ^ 55 }
    {
        rest_to_post(&self.shared, self.members, next) + self.posts_from(next)
    }
}

ghost use Rattle.std.specs.Prelude.{◌≡◌, ◌+◌, ◌*◌, ◌^◌, ◌<◌, ◌≤◌, max, length};
ghost use Rattle.onfi_timing.specs.declared.timing.Timing.{Timing as Shape};
ghost use Rattle.onfi_timing.specs.Phases.{posts_from};
ghost use Rattle.onfi_group.specs.Group.{group_spans};
ghost use Rattle.onfi_problem.specs.declared.lun_state.LunState.TheVariants.{Free, Running};
ghost use Rattle.onfi_problem.specs.Position.{state_of};
ghost use Rattle.onfi_bound.specs.Parts.{chain_of};

use onfi_group::{Group, posts_from};
use onfi_problem::Lun;
use onfi_timing::{Operation, Timing};

/// What is left of a LUN's running group, in ns; where it is free only `from` is not 0.
#[derive(Clone, Copy, Default)]
pub struct Chain {
    /// Whether a group runs on the LUN.
    pub running: bool,
    /// From when on the LUN may go on.
    pub from: u64,
    /// The commands that are left.
    pub commands: u64,
    /// The posts that are left.
    pub posts: u64,
    /// The waits between the phases that are left.
    pub waits: u64,
    /// What the next phase has the LUN do, where that is a command.
    pub command: Option<Operation>,
}

// The posts of a group from phase `next` on, in ns. Most groups have one member, for which no walk is needed.
#[inline(always)]
fn posts_left(timing: &Timing, group: &Group, next: u8) -> u64
    ensures value { result ≡ posts_from (group_spans timing.now group.now) (length group.now) next }
    ensures short { result ≤ 4 * 2 ^ 50 }
{
    if group.len() == 1 && next <= 1 {
        timing.spans(group.kind()).post
    } else {
        posts_of_several(timing, group, next)
    }
}

// What it is in any case; apart, so that the way of one member stays short.
#[inline(never)]
fn posts_of_several(timing: &Timing, group: &Group, next: u8) -> u64
    ensures value { result ≡ posts_from (group_spans timing.now group.now) (length group.now) next }
    ensures short { result ≤ 4 * 2 ^ 50 }
{
    posts_from(timing, group.members(), next as usize)
}

impl Chain {
    /// What is left of what a LUN does.
    pub fn of(timing: &Timing, groups: &[Group], lun: Lun) -> Chain
        requires { 1 ≤ lun.next → lun.place < length groups.now }
        ensures { result ≡ chain_of timing.now (state_of groups.now lun) }
    {
        if lun.next == 0 {
            return Chain::free(lun.time);
        }
        let group = &groups[lun.place as usize];
        if (lun.next as usize) < group.len() {
            Chain::of_commands(timing, group, lun.next, lun.time)
        } else {
            Chain::of_posts(timing, group, lun.next, lun.time)
        }
    }

    /// Nothing, on a LUN that is free from then on.
    #[inline(always)]
    pub fn free(since: u64) -> Chain
        ensures { (timing : Shape) → result ≡ chain_of timing (Free since) }
    {
        Chain {
            running: false,
            from: since,
            commands: 0,
            posts: 0,
            waits: 0,
            command: None,
        }
    }

    /// What is left of a group of which command `next` comes next, from `ready` on.
    #[inline(always)]
    pub fn of_commands(timing: &Timing, group: &Group, next: u8, ready: u64) -> Chain
        requires { next < length group.now }
        ensures { result ≡ chain_of timing.now (Running group.now next ready) }
    {
        let spans = timing.spans(group.kind());
        let (members, commands_done) = (group.len() as u64, next as u64);
        Chain {
            running: true,
            from: ready,
            commands: (members - commands_done) * spans.cmd,
            posts: posts_left(timing, group, next),
            waits: (members - 1 - commands_done) * spans.gap + spans.array,
            command: Some(group.operation()),
        }
    }

    /// What is left of a group whose commands are over, of which phase `next` comes next, from `ready` on.
    #[inline(always)]
    pub fn of_posts(timing: &Timing, group: &Group, next: u8, ready: u64) -> Chain
        requires { length group.now ≤ next }
        ensures { result ≡ chain_of timing.now (Running group.now next ready) }
    {
        Chain {
            running: true,
            from: ready,
            commands: 0,
            posts: posts_left(timing, group, next),
            waits: 0,
            command: None,
        }
    }

    /// When the LUN is done at the earliest with this and that much more work, in ns.
    #[inline(always)]
    pub fn done_by(&self, bus_free: u64, work: u64) -> u64
        requires { max bus_free self.now.from + self.now.commands + self.now.posts + self.now.waits + work < 2 ^ 62 }
        ensures { result ≡ max bus_free self.now.from + self.now.commands + self.now.posts + self.now.waits + work }
    {
        bus_free.max(self.from) + self.commands + self.posts + self.waits + work
    }
}

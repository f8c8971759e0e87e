ghost use Rattle.std.specs.Prelude.{◌≡◌, ℕ, ◌+◌, List, [], ◌∷◌, ◌++◌, length, replicate, Some, IfOk, OnOk, OnErr};
ghost use Rattle.onfi_timing.specs.Kinds.{spans_of};
ghost use Rattle.onfi_die.specs.Store.{Stored};
ghost use Rattle.onfi_chip.specs.Chip.{taken, after_post, ready_by};
ghost use Rattle.onfi_chip.specs.Chip.Lun.{Commanding as InCommands, Posting as InPosts};
ghost use Rattle.onfi_chip.specs.declared.lane.Lane.TheVariants.{Idle};
ghost use Rattle.onfi_chip.specs.declared.post.Post.{Post as APost};
ghost use Rattle.onfi_chip.specs.Sim.{lun_of, request_in, over_at, is_over, IsOpen, IsLane, IsPost, IsReady};

use crate::member::Member;
use crate::post::Post;
use crate::wait::Wait;
use onfi_timing::Timing;
use std::alloc::{AllocError, Global};
use std::collections::VecDeque;

/// What a LUN of a simulated chip does.
#[derive(Debug, Drop)]
pub enum Lane {
    /// Nothing runs.
    Idle,
    /// The group's commands so far, and the wait before the next.
    Commanding(VecDeque<Member>, Wait),
    /// The group's posts that are left, and the wait before the next.
    Posting(VecDeque<Post>, Wait),
}

impl Lane {
    /// How many commands of its group the LUN took.
    pub(crate) fn commands(&self) -> usize
        ensures { result ≡ length (taken (Some (lun_of self.now))) }
    {
        match self {
            Lane::Commanding(members, _) => members.len(),
            Lane::Idle | Lane::Posting(_, _) => 0,
        }
    }

    /// Whether its wait, if it has one, is over at `now`.
    pub(crate) fn is_ready(&self, now: u64) -> bool
        ensures { result ≡ is_over now (lun_of self.now) }
    {
        match self {
            Lane::Idle => true,
            Lane::Commanding(_, wait) => wait.is_over(now),
            Lane::Posting(_, wait) => wait.is_over(now),
        }
    }

    /// Its array was found done at `now`.
    pub(crate) fn find_ready(&mut self, now: u64)
        ensures ready { lun_of self.new ≡ ready_by now (lun_of self.old) }
        ensures kept { (store : Stored) → IsLane store self.old → IsLane store self.new }
    {
        if let Lane::Posting(_, wait) = self {
            *wait = wait.cut_at(now);
        }
    }

    /// Takes one more command of a group, with the wait after it.
    pub(crate) fn queue(
        &mut self,
        alloc: Global,
        member: Member,
        wait: Wait,
    ) -> Result<(), AllocError>
        requires { IsOpen (lun_of self.old) }
        ensures ok { OnOk result (lun_of self.new ≡ InCommands (taken (Some (lun_of self.old)) ++ request_in member ∷ []) (over_at wait)) }
        ensures err { OnErr result (lun_of self.new ≡ lun_of self.old) }
        ensures kept { (store : Stored) → IsLane store self.old → IsReady store member → IsLane store self.new }
    {
        match self {
            Lane::Idle => {
                let mut members = VecDeque::with_capacity(alloc, 1)?;
                members.push_back(member)?;
                *self = Lane::Commanding(members, wait);
            }
            Lane::Commanding(members, before) => {
                members.push_back(member)?;
                *before = wait;
            }
            Lane::Posting(_, _) => unreachable!(),
        }
        Ok(())
    }

    /// Gives up the next post, which starts at `now`; the LUN is idle where none is left.
    pub(crate) fn pop(&mut self, timing: &Timing, now: u64) -> Post
        requires { (post : APost) × (left : List APost) × (ready : ℕ) × (lun_of self.old ≡ InPosts (post ∷ left) ready) }
        ensures taken { (post : APost) (left : List APost) (ready : ℕ) → lun_of self.old ≡ InPosts (post ∷ left) ready
            → (result ≡ post) × (lun_of self.new ≡ after_post left (now + (spans_of timing.now post.kind).post)) }
        ensures formed { (store : Stored) → IsLane store self.old → IsPost store.device.shape result × IsLane store self.new }
    {
        let Lane::Posting(posts, before) = self else {
            unreachable!();
        };
        let Some(post) = posts.pop_front() else {
            unreachable!();
        };
        *before = Wait {
            from: now,
            length: timing.spans(post.kind).post,
        };
        if posts.is_empty() {
            *self = Lane::Idle;
        }
        post
    }
}

/// That many idle LUNs.
pub(crate) fn idle_lanes(alloc: Global, count: u8) -> Result<Vec<Lane>, AllocError>
    ensures { IfOk result (λ lanes. lanes.items ≡ replicate count Idle) }
{
    let mut lanes = Vec::with_capacity(alloc, usize::from(count))?;
    for _lun in 0..count {
        lanes.push(Lane::Idle)?;
    }
    Ok(lanes)
}

ghost use Rattle.std.specs.Prelude.{◌≡◌, ℕ, ◌+◌, ◌≤◌, List, [], ◌∷◌, ◌++◌, map, length, Some, OnOk, OnErr};
ghost use Rattle.std.specs.List.{AllByRecursion as Each};
ghost use Rattle.std.specs.VecDeque.{deque_len, deque_capacity};
ghost use Rattle.onfi_request.specs.declared.request.Request.{Request as ARequest};
ghost use Rattle.onfi_die.specs.Blocks.{happen};
ghost use Rattle.onfi_die.specs.Store.{IsKept, blocks_of};
ghost use Rattle.onfi_chip.specs.Chip.{taken, posts_of};
ghost use Rattle.onfi_chip.specs.Chip.Lun.{Commanding as InCommands, Posting as InPosts};
ghost use Rattle.onfi_chip.specs.Sim.{lun_of, request_in, over_at, IsLane, IsOpen, IsReady, IsPost};

use crate::lane::Lane;
use crate::member::Member;
use crate::post::Post;
use crate::wait::Wait;
use onfi_die::Store;
use std::alloc::{AllocError, Global};
use std::collections::VecDeque;
use std::mem;

// The last command was given. There is room for as many `posts` as the group has members.
fn launch(store: &mut Store, lane: &mut Lane, mut posts: VecDeque<Post>)
    requires commanding { (requests : List ARequest) × (ready : ℕ) × (lun_of lane.old ≡ InCommands requests ready) }
    requires lane { IsLane store.old lane.old }
    requires empty { posts.items ≡ [] }
    requires room { length (taken (Some (lun_of lane.old))) ≤ deque_capacity posts }
    ensures device { store.new.device ≡ store.old.device }
    ensures blocks { blocks_of store.new ≡ happen store.old.device (taken (Some (lun_of lane.old))) (blocks_of store.old) }
    ensures posting { (requests : List ARequest) (ready : ℕ) → lun_of lane.old ≡ InCommands requests ready
        → lun_of lane.new ≡ InPosts (posts_of store.old.device requests (blocks_of store.old)) ready }
    ensures formed { IsLane store.new lane.new }
    ensures others { (lun block : ℕ) → IsKept lun block store.old → IsKept lun block store.new }
{
    let Lane::Commanding(members, wait) = mem::replace(lane, Lane::Idle) else {
        unreachable!();
    };
    run_all(store, members, &mut posts);
    *lane = Lane::Posting(posts, wait);
}

/// Takes the last command of a group, with the wait after it: the group's requests happen, and their answers wait for its
/// posts.
pub(crate) fn close(
    alloc: Global,
    store: &mut Store,
    lane: &mut Lane,
    member: Member,
    wait: Wait,
) -> Result<(), AllocError>
    requires open { IsOpen (lun_of lane.old) }
    requires lane { IsLane store.old lane.old }
    requires ready { IsReady store.old member }
    ensures device { store.new.device ≡ store.old.device }
    ensures blocks { OnOk result (blocks_of store.new ≡ happen store.old.device (taken (Some (lun_of lane.old)) ++ request_in member ∷ []) (blocks_of store.old)) }
    ensures posting { OnOk result (lun_of lane.new
        ≡ InPosts (posts_of store.old.device (taken (Some (lun_of lane.old)) ++ request_in member ∷ []) (blocks_of store.old)) (over_at wait)) }
    ensures formed { IsLane store.new lane.new }
    ensures others { (lun block : ℕ) → IsKept lun block store.old → IsKept lun block store.new }
    ensures err { OnErr result ((lun_of lane.new ≡ lun_of lane.old) × (store.new ≡ store.old)) }
{
    let posts = VecDeque::with_capacity(alloc, lane.commands() + 1)?;
    lane.queue(alloc, member, wait)?;
    launch(store, lane, posts);
    Ok(())
}

fn run_all(store: &mut Store, mut members: VecDeque<Member>, posts: &mut VecDeque<Post>)
    requires ready { Each (IsReady store.old) members.items }
    requires room { deque_len posts.old + deque_len members ≤ deque_capacity posts.old }
    requires formed { Each (IsPost store.old.device.shape) posts.old.items }
    ensures device { store.new.device ≡ store.old.device }
    ensures blocks { blocks_of store.new ≡ happen store.old.device (map request_in members.items) (blocks_of store.old) }
    ensures posts { posts.new.items ≡ posts.old.items ++ posts_of store.old.device (map request_in members.items) (blocks_of store.old) }
    ensures formed { Each (IsPost store.old.device.shape) posts.new.items }
    ensures others { (lun block : ℕ) → IsKept lun block store.old → IsKept lun block store.new }
{
    while let Some(member) = members.pop_front() {
        let Member { place, operation } = member;
        let kind = operation.kind();
        let answer = store.run(place, operation);
        posts.push_back_reserved(Post {
            kind,
            place,
            answer,
        });
    }
}

//! What a schedule costs.

ghost use Rattle.std.specs.Prelude.{◌≡◌, ◌+◌, ◌*◌, ◌^◌, ◌<◌, ◌≤◌, drop, length, slice_get, slice_index, Some};
ghost use Rattle.std.specs.List.{AllByRecursion as Each};
ghost use Rattle.std.specs.Option.{option_map};
ghost use Rattle.onfi_group.specs.Words.{total};
ghost use Rattle.onfi_group.specs.Group.{group_spans};
ghost use Rattle.onfi_demand.specs.Left.{left_on};
ghost use Rattle.onfi_schedule.specs.Schedule.{Legal};
ghost use Rattle.onfi_schedule.specs.Conditions.{start_count};
ghost use Rattle.onfi_planners.specs.Cost.{cost, group_cost, left_cost, member_weights, posts_cost, rest_cost, weight_of};

use crate::weights::Weights;
use arrayvec::ArrayVec;
use onfi_demand::{GroupLengths, LunLeft, left_on};
use onfi_problem::Problem;
use onfi_request::Want;
use onfi_schedule::{Placed, Schedule, Starts};
use onfi_timing::Timing;

/// What a legal schedule costs: the sum, over the wants of the problem and the members of running groups whose post is
/// left, of their weight times the end of their post, in ns of the channel's clock.
pub fn cost_of(problem: &Problem, schedule: &Schedule, weights: &Weights) -> u128
    requires { Legal problem.now.problem schedule.now }
    ensures value { result ≡ cost weights.now problem.now schedule.now }
    ensures small { result < 2 ^ 87 }
{
    problem.in_limits();
    let timing = problem.timing();
    let left = cost_of_rest(problem, timing, &weights.running, schedule.rest());
    left + cost_of_groups(timing, problem.wants(), &weights.wants, schedule.groups())
}

// What is left of running groups costs.
fn cost_of_rest(
    problem: &Problem,
    timing: &Timing,
    weights: &[[u16; 4]; 8],
    rest: &[Starts],
) -> u128
    requires { length rest.now ≡ length problem.now.problem.luns }
    ensures value { result ≡ rest_cost timing.now weights.now 0 problem.now.problem.luns rest.now }
    ensures small { result ≤ 64 * 2 ^ 80 }
{
    problem.in_limits();
    let _luns = problem.lun_count();
    let mut cost = 0;
    for (lun, starts) in rest.iter().enumerate() {
        cost += cost_left(problem, timing, lun as u8, &weights[lun], starts);
    }
    cost
}

// What is left of the group that runs on a LUN costs, where one does.
fn cost_left(problem: &Problem, timing: &Timing, lun: u8, weights: &[u16], starts: &Starts) -> u128
    requires { lun < length problem.now.problem.luns }
    ensures value { option_map (λ state. left_cost timing.now weights.now (left_on state) starts.now) (slice_get problem.now.problem.luns lun) ≡ Some result }
    ensures small { result ≤ 8 * 2 ^ 80 }
{
    match left_on(problem, lun) {
        LunLeft::Idle => 0,
        LunLeft::Rest {
            operation,
            members,
            next,
            sectors,
        } => {
            let lengths = GroupLengths::of(timing, operation, members, next, &sectors);
            let commands = members.saturating_sub(next) as usize;
            let first = next.saturating_sub(members) as usize;
            cost_after(lengths.posts(), weights, first, commands, starts)
        }
    }
}

// New groups cost.
fn cost_of_groups(timing: &Timing, wants: &[Want], weights: &[u16; 8], groups: &[Placed]) -> u128
    requires wants { length wants.now ≤ 8 }
    requires few { start_count groups.now ≤ 16 }
    ensures value { result ≡ total (group_cost timing.now wants.now weights.now) groups.now }
    ensures small { result ≤ 16 * 2 ^ 80 }
{
    let mut cost = 0;
    for group in groups {
        cost += cost_of_group(timing, wants, weights, group);
    }
    cost
}

fn cost_of_group(timing: &Timing, wants: &[Want], weights: &[u16; 8], group: &Placed) -> u128
    requires { length wants.now ≤ 8 }
    ensures value { result ≡ group_cost timing.now wants.now weights.now group.now }
    ensures small { result ≤ length group.now.starts * 2 ^ 80 }
{
    let members = group.members();
    let posts = posts_of(timing, members.members());
    let own = weights_of(wants, weights, members.members());
    let starts = group.starts();
    cost_after(posts.as_slice(), own.as_slice(), 0, members.len(), starts)
}

// What the posts after that number of commands cost; the first of them is that of member `first`.
fn cost_after(
    posts: &[u64],
    weights: &[u16],
    first: usize,
    commands: usize,
    starts: &Starts,
) -> u128
    requires posts { Each (λ t. t < 2 ^ 50) posts.now }
    requires first { first < 2 ^ 60 }
    ensures value { result ≡ posts_cost posts.now weights.now first (drop commands starts.now) }
    ensures small { result ≤ length starts.now * 2 ^ 80 }
    ensures few { result ≤ 8 * 2 ^ 80 }
{
    let starts = starts.as_slice();
    if starts.len() < commands {
        return 0;
    }
    cost_of_posts(posts, weights, first, &starts[commands..])
}

// Posts cost; the first of them is that of member `first`.
fn cost_of_posts(posts: &[u64], weights: &[u16], first: usize, starts: &[u64]) -> u128
    requires posts { Each (λ t. t < 2 ^ 50) posts.now }
    requires first { first < 2 ^ 60 }
    requires starts { Each (λ t. t < 2 ^ 63) starts.now }
    requires few { length starts.now ≤ 8 }
    ensures value { result ≡ posts_cost posts.now weights.now first starts.now }
    ensures small { result ≤ length starts.now * 2 ^ 80 }
{
    let mut cost = 0;
    for (at, start) in starts.iter().enumerate() {
        cost += cost_of_post(weights, first + at, *start + length_of(posts, first + at));
    }
    cost
}

// How long the post of a member takes, in ns; 0 where there is no such member.
fn length_of(posts: &[u64], member: usize) -> u64
    requires { Each (λ t. t < 2 ^ 50) posts.now }
    ensures value { result ≡ slice_index posts.now member }
    ensures small { result < 2 ^ 50 }
{
    match posts.get(member) {
        Some(post) => *post,
        None => 0,
    }
}

// The post of a member costs that ends then.
fn cost_of_post(weights: &[u16], member: usize, end: u64) -> u128
    ensures value { result ≡ slice_index weights.now member * end }
    ensures small { result ≤ 2 ^ 80 }
{
    match weights.get(member) {
        Some(weight) => *weight as u128 * end as u128,
        None => 0,
    }
}

// The weights of wants, by their places among all.
fn weights_of(wants: &[Want], weights: &[u16; 8], members: &[Want]) -> ArrayVec<u16, 4>
    requires few { length members.now ≤ 4 }
    requires wants { length wants.now ≤ 8 }
    ensures { result.items ≡ member_weights wants.now weights.now members.now }
{
    let mut own = ArrayVec::new();
    for member in members {
        own.push(weight_of(wants, weights, member.id));
    }
    own
}

// How long the post of each member takes, in ns.
fn posts_of(timing: &Timing, members: &[Want]) -> ArrayVec<u64, 4>
    requires { length members.now ≤ 4 }
    ensures value { result.items ≡ (group_spans timing.now members.now).posts }
    ensures short { Each (λ t. t < 2 ^ 50) result.items }
{
    let mut posts = ArrayVec::new();
    for member in members {
        posts.push(timing.spans(member.kind).post);
    }
    posts
}

/// The weight of the want of that number; 0 where there is none.
pub(crate) fn weight_of(wants: &[Want], weights: &[u16; 8], id: u64) -> u16
    requires { length wants.now ≤ 8 }
    ensures { result ≡ weight_of wants.now weights.now id }
{
    for (at, want) in wants.iter().enumerate() {
        if want.id == id {
            return weights[at];
        }
    }
    0
}

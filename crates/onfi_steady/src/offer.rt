//! The group that a LUN would begin, of its requests that may begin.

ghost use Rattle.std.specs.Prelude.{◌≡◌, ℕ, ◌≤◌, ◌<◌, ◌+◌, ◌++◌, [], true, length, slice_get, IfSome};
ghost use Rattle.std.specs.List.{find, list_any, cons_option};
ghost use Rattle.onfi_timing.specs.declared.kind.Kind.{Kind as AnyKind};
ghost use Rattle.onfi_group.specs.Group.{may_group};
ghost use Rattle.onfi_steady.specs.Offer.{turned_to, group_with, goes_with, is_mate, is_on_last_plane, is_same_page, is_same_row, is_due as is_due_waiter, is_kind as is_kind_of, may_grow, member_on};

use crate::own::operation_rank;
use crate::waiter::Waiter;
use arrayvec::ArrayVec;
use onfi_group::Rules;
use onfi_request::Want;
use onfi_timing::{Kind, Operation};

/// The request that a LUN turns to, of those that may begin.
pub fn pick_request(ready: &[Waiter]) -> Option<Waiter>
    ensures { result ≡ turned_to ready.now }
{
    if let Some(waiter) = oldest_due(ready) {
        return Some(waiter);
    }
    if let Some(waiter) = oldest_of(ready, Kind::Read) {
        return Some(waiter);
    }
    if let Some(waiter) = oldest_of(ready, Kind::Program) {
        return Some(waiter);
    }
    oldest_of(ready, Kind::Erase)
}

// The oldest that is due.
fn oldest_due(ready: &[Waiter]) -> Option<Waiter>
    ensures { result ≡ find is_due_waiter ready.now }
{
    ready.iter().copied().find(|waiter| waiter.is_due())
}

/// The oldest of a kind.
pub fn oldest_of(ready: &[Waiter], kind: Kind) -> Option<Waiter>
    ensures { result ≡ find (is_kind_of kind) ready.now }
{
    ready.iter().copied().find(|waiter| waiter.is_kind(kind))
}

/// A request with its mates, by rising plane.
pub fn group_with(rules: &Rules, ready: &[Waiter], head: Option<Waiter>) -> ArrayVec<Want, 4>
    ensures { result.items ≡ group_with rules.now ready.now head }
{
    let mut members = ArrayVec::new();
    if let Some(head) = head {
        put(&mut members, member_on(rules, ready, &head.want, 0));
        put(&mut members, member_on(rules, ready, &head.want, 1));
        put(&mut members, member_on(rules, ready, &head.want, 2));
        put(&mut members, member_on(rules, ready, &head.want, 3));
    }
    members
}

// Appends a member to the others, where there is one.
fn put(members: &mut ArrayVec<Want, 4>, member: Option<Want>)
    requires { length members.old.items < 4 }
    ensures items { members.new.items ≡ members.old.items ++ cons_option member [] }
    ensures few { length members.new.items ≤ length members.old.items + 1 }
{
    if let Some(member) = member {
        members.push(member);
    }
}

// What of a request's group is on a plane.
fn member_on(rules: &Rules, ready: &[Waiter], head: &Want, plane: u8) -> Option<Want>
    ensures { result ≡ member_on rules.now ready.now head.now plane }
{
    if plane == head.plane {
        return Some(*head);
    }
    match mate_on(rules, ready, head, plane) {
        Some(waiter) => Some(waiter.want),
        None => None,
    }
}

// The oldest that may join it on another plane.
fn mate_on(rules: &Rules, ready: &[Waiter], head: &Want, plane: u8) -> Option<Waiter>
    ensures { result ≡ find (is_mate rules.now head.now plane) ready.now }
{
    ready
        .iter()
        .copied()
        .find(|waiter| is_mate(rules, head, plane, waiter))
}

fn is_mate(rules: &Rules, head: &Want, plane: u8, waiter: &Waiter) -> bool
    ensures { result ≡ is_mate rules.now head.now plane waiter.now }
{
    waiter.want.plane == plane
        && may_group(rules, head.kind.operation())
        && goes_with(rules, head, &waiter.want)
}

// Whether several requests of that operation may run as one.
fn may_group(rules: &Rules, operation: Operation) -> bool
    ensures { result ≡ may_group rules.now operation }
{
    match operation {
        Operation::Read => rules.read,
        Operation::Program | Operation::Erase => rules.write,
    }
}

// Whether two may run as one, were they on two planes of one LUN.
fn goes_with(rules: &Rules, head: &Want, member: &Want) -> bool
    ensures { result ≡ goes_with rules.now head.now member.now }
{
    operation_rank(member.kind.operation()) == operation_rank(head.kind.operation())
        && is_same_page(head, member)
        && is_same_row(rules, head, member)
}

fn is_same_page(head: &Want, member: &Want) -> bool
    ensures { result ≡ is_same_page head.now member.now }
{
    operation_rank(head.kind.operation()) == operation_rank(Operation::Erase)
        || member.page == head.page
}

fn is_same_row(rules: &Rules, head: &Want, member: &Want) -> bool
    ensures { result ≡ is_same_row rules.now head.now member.now }
{
    !rules.strict || member.block >> rules.plane_bits == head.block >> rules.plane_bits
}

/// Whether more mates may come.
pub fn may_grow(rules: &Rules, head: Option<Waiter>, group: &[Want]) -> bool
    ensures { result ≡ may_grow rules.now head group.now }
{
    match head {
        Some(head) => {
            !head.is_due()
                && head.is_kind(Kind::Program)
                && rules.write
                && !has_last_plane(rules, group)
        }
        None => false,
    }
}

fn has_last_plane(rules: &Rules, group: &[Want]) -> bool
    ensures { result ≡ list_any (is_on_last_plane rules.now) group.now }
{
    group.iter().any(|member| is_on_last_plane(rules, member))
}

fn is_on_last_plane(rules: &Rules, member: &Want) -> bool
    ensures { result ≡ is_on_last_plane rules.now member.now }
{
    member.plane == (1u8 << rules.plane_bits) - 1
}

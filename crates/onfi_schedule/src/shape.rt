//! The shape of a schedule: each request in exactly one group, each phase with one start.

ghost use Rattle.std.specs.Prelude.{◌≡◌, ◌≤◌, ◌↔◌, IsNone, IfSome, IsTrue, Some, length, slice_get};
ghost use Rattle.std.specs.List.{AllByRecursion as Each, Any};
ghost use Rattle.onfi_group.specs.Words.{Has, number};
ghost use Rattle.onfi_problem.specs.Problem.{Problem, IsProblem, has_id};
ghost use Rattle.onfi_problem.specs.Position.{state_of};
ghost use Rattle.onfi_schedule.specs.Conditions.{Names, EachRest, StateFits, StartsFit, MembersAmong, HoldsOnce, id_count, states_of};
ghost use Rattle.onfi_schedule.specs.Schedule.{Schedule, rest_of};
ghost use Rattle.onfi_schedule.specs.Tells.{Tells, IsUnknown};
ghost use Rattle.onfi_schedule.specs.Breaks.{condition_of, lun_count, rest_counts, start_counts, known_requests, each_once};

use crate::breach::Breach;
use crate::placed::Placed;
use crate::starts::Starts;
use onfi_group::Group;
use onfi_problem::Lun;
use onfi_request::Want;

/// A LUN that isn't there, or that the schedule leaves out.
pub(crate) fn lun_count(count: usize, rest: &[Starts]) -> Option<Breach>
    requires some { 1 ≤ count }
    ensures none { IsNone result ↔ (length rest.now ≡ count) }
    ensures about { IfSome result (λ b. condition_of b ≡ lun_count) }
    ensures told { (p : Problem) (s : Schedule) → length p.luns ≡ count → s.rest ≡ rest.now → IfSome result (Tells p s) }
{
    let scheduled = rest.len();
    if scheduled == count {
        None
    } else if scheduled < count {
        Some(Breach::MissingLun { lun: scheduled })
    } else {
        Some(Breach::ForeignLun { last: count - 1 })
    }
}

fn left_count(table: &[Group], at: u8, lun: &Lun, starts: &Starts) -> Option<Breach>
    requires named { Names table.now lun.now }
    ensures none { IsNone result ↔ StateFits (state_of table.now lun.now) starts.now }
    ensures about { IfSome result (λ b. condition_of b ≡ rest_counts) }
    ensures told { (p : Problem) (s : Schedule) → IsProblem p → slice_get p.luns at ≡ Some (state_of table.now lun.now) → rest_of s at ≡ Some starts.now → IfSome result (Tells p s) }
{
    let starts = starts.as_slice().len();
    if lun.next == 0 {
        return if starts == 0 {
            None
        } else {
            Some(Breach::RestOfFreeLun { lun: at })
        };
    }
    let phases = 2 * table[lun.place as usize].len();
    let over = lun.next as usize;
    if over + starts == phases {
        return None;
    }
    Some(Breach::RestCount {
        lun: at,
        starts,
        left: phases.saturating_sub(over),
    })
}

/// A LUN with other starts than its running group has phases left.
pub(crate) fn rest_count(table: &[Group], luns: &[Lun], rest: &[Starts]) -> Option<Breach>
    requires few { length luns.now ≤ 8 }
    requires length { length rest.now ≡ length luns.now }
    requires named { Each (Names table.now) luns.now }
    ensures none { IsNone result ↔ EachRest StateFits (states_of table.now luns.now) rest.now }
    ensures about { IfSome result (λ b. condition_of b ≡ rest_counts) }
    ensures told { (p : Problem) (s : Schedule) → IsProblem p → p.luns ≡ states_of table.now luns.now → s.rest ≡ rest.now → IfSome result (Tells p s) }
{
    for (at, lun) in luns.iter().enumerate() {
        let breach = left_count(table, at as u8, lun, &rest[at]);
        if breach.is_some() {
            return breach;
        }
    }
    None
}

/// A group with other starts than it has phases.
pub(crate) fn start_count(groups: &[Placed]) -> Option<Breach>
    ensures none { IsNone result ↔ Each StartsFit groups.now }
    ensures about { IfSome result (λ b. condition_of b ≡ start_counts) }
    ensures told { (p : Problem) (s : Schedule) → s.groups ≡ groups.now → IfSome result (Tells p s) }
{
    for group in groups {
        let starts = group.starts().as_slice().len();
        let members = group.members().members();
        let phases = 2 * members.len();
        if starts != phases {
            return Some(Breach::StartCount {
                request: members[0].id,
                starts,
                phases,
            });
        }
    }
    None
}

/// Whether the want is one of them.
pub(crate) fn holds(wants: &[Want], want: &Want) -> bool
    ensures { IsTrue result ↔ Has wants.now want.now }
{
    for other in wants {
        if other == want {
            return true;
        }
    }
    false
}

fn find_unknown_among(wants: &[Want], members: &[Want]) -> Option<u64>
    ensures none { IsNone result ↔ Each (Has wants.now) members.now }
    ensures told { IfSome result (λ id. Any (IsUnknown wants.now id) members.now) }
{
    for member in members {
        if !holds(wants, member) {
            return Some(member.id);
        }
    }
    None
}

/// A request of the schedule that the problem doesn't have.
pub(crate) fn find_unknown(wants: &[Want], groups: &[Placed]) -> Option<Breach>
    ensures none { IsNone result ↔ Each (MembersAmong wants.now) groups.now }
    ensures about { IfSome result (λ b. condition_of b ≡ known_requests) }
    ensures told { (p : Problem) (s : Schedule) → p.wants ≡ wants.now → s.groups ≡ groups.now → IfSome result (Tells p s) }
{
    for group in groups {
        if let Some(request) = find_unknown_among(wants, group.members().members()) {
            return Some(Breach::UnknownRequest { request });
        }
    }
    None
}

fn count_in(members: &[Want], id: u64) -> usize
    ensures value { result ≡ number (has_id id) members.now }
    ensures few { result ≤ length members.now }
{
    let mut count = 0;
    for member in members {
        if member.id == id {
            count += 1;
        }
    }
    count
}

fn count_in_all(groups: &[Placed], id: u64) -> usize
    ensures { result ≡ id_count groups.now id }
{
    let mut count = 0;
    for group in groups {
        count += count_in(group.members().members(), id);
    }
    count
}

/// A request in no group, or in several.
pub(crate) fn missing_or_repeated(groups: &[Placed], wants: &[Want]) -> Option<Breach>
    ensures none { IsNone result ↔ Each (HoldsOnce groups.now) wants.now }
    ensures about { IfSome result (λ b. condition_of b ≡ each_once) }
    ensures told { (p : Problem) (s : Schedule) → p.wants ≡ wants.now → s.groups ≡ groups.now → IfSome result (Tells p s) }
{
    for want in wants {
        let request = want.id;
        let times = count_in_all(groups, request);
        if times == 0 {
            return Some(Breach::MissingRequest { request });
        }
        if times != 1 {
            return Some(Breach::RepeatedRequest { request, times });
        }
    }
    None
}

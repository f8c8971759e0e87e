//! The phases of a schedule with their names.

ghost use Rattle.std.specs.Prelude.{◌≡◌, ◌+◌, ◌^◌, ◌<◌, ◌≤◌, ◌++◌, length};
ghost use Rattle.std.specs.List.{AllByRecursion as Each, flat_map};
ghost use Rattle.arrayvec.specs.ArrayVec.{array_vec_len};
ghost use Rattle.onfi_group.specs.Group.{lun_of, group_spans};
ghost use Rattle.onfi_problem.specs.Position.{state_of};
ghost use Rattle.onfi_schedule.specs.Schedule.{phases_from, phases_left, rest_phases, group_phases, latest};
ghost use Rattle.onfi_schedule.specs.Conditions.{Names, start_count, states_of, phases_of};
ghost use Rattle.onfi_schedule.specs.Names.{owner_of, name_of, named_from, named_left, named_rest, named_group, named_of};
ghost use Rattle.onfi_schedule.specs.Slots.{phases_in, named_in};

use crate::phase::Phase;
use crate::phase_name::{Owner, Part, PhaseName};
use crate::placed::Placed;
use crate::schedule::Schedule;
use crate::slot::Slot;
use crate::starts::Starts;
use arrayvec::ArrayVec;
use onfi_group::{Group, phase_length};
use onfi_problem::Lun;
use onfi_request::Want;
use onfi_timing::Timing;

/// Slots, kept inline. No schedule of a problem has more phases: at most eight on each of eight LUNs, and two for each
/// of eight requests.
pub(crate) type Slots = ArrayVec<Slot, 80>;

/// Those of one group, which has at most eight phases.
pub(crate) type GroupSlots = ArrayVec<Slot, 8>;

/// What is common to the phases of a group from number `next` on; a new group begins with number 0.
#[derive(Clone, Copy)]
pub(crate) struct Work<'t> {
    pub(crate) lun: u8,
    pub(crate) timing: &'t Timing,
    pub(crate) next: usize,
}

impl<'t> Work<'t> {
    /// Of a new group.
    pub(crate) fn of_new(timing: &'t Timing, group: &Group) -> Work<'t>
        ensures lun { result.lun ≡ lun_of group.now }
        ensures timing { result.timing.now ≡ timing.now }
        ensures next { result.next ≡ 0 }
    {
        Work {
            lun: group.lun(),
            timing,
            next: 0,
        }
    }

    /// Of the group that runs on a LUN.
    pub(crate) fn of_running(timing: &'t Timing, at: u8, lun: &Lun) -> Work<'t>
        ensures lun { result.lun ≡ at }
        ensures timing { result.timing.now ≡ timing.now }
        ensures next { result.next ≡ lun.now.next }
    {
        Work {
            lun: at,
            timing,
            next: lun.next as usize,
        }
    }

    fn owner(&self, member: &Want) -> Owner
        ensures { result ≡ owner_of self.now.next self.now.lun member.now }
    {
        if self.next == 0 {
            Owner::Request(member.id)
        } else {
            Owner::Running {
                lun: self.lun,
                block: member.block,
            }
        }
    }

    /// The name of phase `number` of these members.
    pub(crate) fn name(&self, members: &[Want], number: usize) -> PhaseName
        ensures { result ≡ name_of self.now.next self.now.lun members.now number }
    {
        if let Some(member) = members.get(number) {
            return PhaseName {
                part: Part::Command,
                owner: self.owner(member),
            };
        }
        let place = number.saturating_sub(members.len());
        match members.get(place) {
            Some(member) => PhaseName {
                part: Part::post_of(member.kind.operation()),
                owner: self.owner(member),
            },
            None => PhaseName {
                part: Part::Command,
                owner: Owner::Request(0),
            },
        }
    }
}

/// Appends the phases of a group at these starts to the others.
fn push_work<const CAP: usize>(
    slots: &mut ArrayVec<Slot, CAP>,
    work: &Work<'_>,
    members: &[Want],
    starts: &[u64],
)
    requires room { array_vec_len slots.old + length starts.now ≤ CAP }
    requires few { work.now.next + length starts.now < 2 ^ 60 }
    requires small { Each (λ t. t < 2 ^ 63) starts.now }
    ensures phases { phases_in slots.new.items ≡ phases_in slots.old.items ++ phases_from work.now.lun (group_spans work.now.timing.now members.now) (length members.now) work.now.next starts.now }
    ensures named { named_in slots.new.items ≡ named_in slots.old.items ++ named_from work.now.next work.now.lun (group_spans work.now.timing.now members.now) members.now work.now.next starts.now }
    ensures len { array_vec_len slots.new ≡ array_vec_len slots.old + length starts.now }
{
    let mut number = work.next;
    for start in starts {
        slots.push(Slot {
            name: work.name(members, number),
            phase: Phase {
                lun: work.lun,
                start: *start,
                length: phase_length(work.timing, members, number),
            },
        });
        number += 1;
    }
}

/// Appends what is left of a running group to the others; nothing where the LUN is free.
pub(crate) fn push_left<const CAP: usize>(
    slots: &mut ArrayVec<Slot, CAP>,
    timing: &Timing,
    table: &[Group],
    at: u8,
    lun: &Lun,
    starts: &Starts,
)
    requires room { array_vec_len slots.old + 8 ≤ CAP }
    requires named { Names table.now lun.now }
    ensures phases { phases_in slots.new.items ≡ phases_in slots.old.items ++ phases_left timing.now at (state_of table.now lun.now) starts.now }
    ensures named { named_in slots.new.items ≡ named_in slots.old.items ++ named_left timing.now at (state_of table.now lun.now) starts.now }
    ensures len { array_vec_len slots.new ≤ array_vec_len slots.old + 8 }
{
    if lun.next == 0 {
        return;
    }
    let group = &table[lun.place as usize];
    let work = Work::of_running(timing, at, lun);
    push_work(slots, &work, group.members(), starts.as_slice());
}

/// Appends the phases of a new group to the others.
pub(crate) fn push_group<const CAP: usize>(
    slots: &mut ArrayVec<Slot, CAP>,
    timing: &Timing,
    members: &Group,
    starts: &[u64],
)
    requires room { array_vec_len slots.old + length starts.now ≤ CAP }
    requires small { Each (λ t. t < 2 ^ 63) starts.now }
    ensures phases { phases_in slots.new.items ≡ phases_in slots.old.items ++ group_phases timing.now (record { members = members.now; starts = starts.now }) }
    ensures named { named_in slots.new.items ≡ named_in slots.old.items ++ named_group timing.now (record { members = members.now; starts = starts.now }) }
    ensures len { array_vec_len slots.new ≡ array_vec_len slots.old + length starts.now }
{
    let work = Work::of_new(timing, members);
    push_work(slots, &work, members.members(), starts);
}

fn push_rest(slots: &mut Slots, timing: &Timing, table: &[Group], luns: &[Lun], rest: &[Starts])
    requires few { length luns.now ≤ 8 }
    requires length { length rest.now ≡ length luns.now }
    requires named { Each (Names table.now) luns.now }
    requires room { array_vec_len slots.old ≡ 0 }
    ensures phases { phases_in slots.new.items ≡ phases_in slots.old.items ++ rest_phases timing.now 0 (states_of table.now luns.now) rest.now }
    ensures named { named_in slots.new.items ≡ named_in slots.old.items ++ named_rest timing.now 0 (states_of table.now luns.now) rest.now }
    ensures len { array_vec_len slots.new ≤ 64 }
{
    for (at, lun) in luns.iter().enumerate() {
        push_left(slots, timing, table, at as u8, lun, &rest[at]);
    }
}

fn push_groups(slots: &mut Slots, timing: &Timing, groups: &[Placed])
    requires room { array_vec_len slots.old + start_count groups.now ≤ 80 }
    ensures phases { phases_in slots.new.items ≡ phases_in slots.old.items ++ flat_map (group_phases timing.now) groups.now }
    ensures named { named_in slots.new.items ≡ named_in slots.old.items ++ flat_map (named_group timing.now) groups.now }
{
    for group in groups {
        push_group(slots, timing, group.members(), group.starts().as_slice());
    }
}

/// All phases of a schedule.
pub(crate) fn all_slots(
    timing: &Timing,
    table: &[Group],
    luns: &[Lun],
    schedule: &Schedule,
) -> Slots
    requires few { length luns.now ≤ 8 }
    requires length { length schedule.now.rest ≡ length luns.now }
    requires named { Each (Names table.now) luns.now }
    requires room { start_count schedule.now.groups ≤ 16 }
    ensures phases { phases_in result.items ≡ phases_of timing.now (states_of table.now luns.now) schedule.now }
    ensures named { named_in result.items ≡ named_of timing.now (states_of table.now luns.now) schedule.now }
{
    let mut slots = ArrayVec::new();
    push_rest(&mut slots, timing, table, luns, schedule.rest());
    push_groups(&mut slots, timing, schedule.groups());
    slots
}

/// The latest of `time` and the ends of the phases, in ns.
pub(crate) fn latest(time: u64, slots: &[Slot]) -> u64
    ensures { result ≡ latest time (phases_in slots.now) }
{
    let mut last = time;
    for slot in slots {
        last = last.max(slot.phase.start + slot.phase.length);
    }
    last
}

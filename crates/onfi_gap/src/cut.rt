//! A piece of a log, as it stands there.

ghost use Rattle.std.specs.Prelude.{◌≡◌, ◌≤◌, ◌++◌, IfOk, OnOk, length, slice_get};
ghost use Rattle.onfi_gap.specs.Cuts as spec;

use crate::notes::Note;
use crate::walk::Walk;
use onfi_audit::LunStage;
use onfi_group::Group;
use onfi_problem::LunState;
use onfi_request::Want;
use std::alloc::{AllocError, Global};
use std::marker::Model;

/// How many requests a piece has at most.
const MOST: usize = 8;

/// A piece of a log: what the channel is at its beginning, and its requests. Times are ns of the channel's clock.
#[derive(Drop)]
pub(crate) struct Cut {
    /// The line of its first command, counted from 1.
    pub(crate) line: u64,
    pub(crate) bus_free: u64,
    pub(crate) luns: Vec<LunState>,
    /// In the order in which their groups began.
    pub(crate) wants: Vec<Want>,
    /// When the last of its requests ended.
    pub(crate) end: u64,
}

impl Model for Cut {
    ghost use Rattle.onfi_gap.specs.Cuts.{Cut as ACut};

    ghost Value = { ACut };

    ghost view = { λ c. record { line = c.line; bus_free = c.bus_free; luns = c.luns.items; wants = c.wants.items; end = c.end } };
}

/// How many of these groups a piece takes: it takes groups while it has at most eight requests.
pub(crate) fn count_groups(groups: &[Note]) -> usize
    ensures value { result ≡ spec.few_groups 0 groups.now }
    ensures within { result ≤ length groups.now }
{
    let mut count = 0usize;
    for (at, group) in groups.iter().enumerate() {
        count += group.members.len();
        if count > MOST {
            return at;
        }
    }
    groups.len()
}

/// Appends the members of a group that is over.
fn put_members(wants: &mut Vec<Want>, group: &Note) -> Result<(), AllocError>
    ensures { OnOk result (wants.new.items ≡ wants.old.items ++ spec.own_members group.now) }
{
    if group.is_over {
        wants.extend_from_slice(group.members.as_slice())?;
    }
    Ok(())
}

/// The requests of these groups, in the order in which those began.
fn wants_of(alloc: Global, groups: &[Note]) -> Result<Vec<Want>, AllocError>
    ensures { IfOk result (λ v. v.items ≡ spec.members_of groups.now) }
{
    let mut wants = Vec::new(alloc);
    for group in groups {
        put_members(&mut wants, group)?;
    }
    Ok(wants)
}

/// When a group is over by the log; 0 where it isn't.
fn own_end(group: &Note) -> u64
    ensures { result ≡ spec.own_end group.now }
{
    if group.is_over { group.end } else { 0 }
}

/// When the last of these groups is over by the log.
fn end_of(groups: &[Note]) -> u64
    ensures { result ≡ spec.end_of groups.now }
{
    let mut last = 0u64;
    for group in groups {
        last = last.max(own_end(group));
    }
    last
}

/// Whether the group of that number is over by that moment.
fn ends_by(notes: &[Note], number: usize, end: u64) -> bool
    ensures { result ≡ spec.ends_by end (slice_get notes.now number) }
{
    match notes.get(number) {
        Some(note) => note.is_over && note.end <= end,
        None => false,
    }
}

/// The members that the group of that number gets in the log.
fn members_at(notes: &[Note], number: usize) -> &[Want]
    ensures value { result.now ≡ spec.members_in (slice_get notes.now number) }
    ensures few { length result.now ≤ 4 }
{
    match notes.get(number) {
        Some(note) => note.members.as_slice(),
        None => &[],
    }
}

/// What a LUN does whose open group gets these members in the log.
fn open_state(alloc: Global, group: &Group, more: u64, ready: u64, members: &[Want]) -> LunState
    requires { length members.now ≤ 4 }
    ensures { result ≡ spec.open_state group.now more ready members.now }
{
    if members.len() > group.len() {
        return LunState::Running {
            group: Group::of(alloc, members),
            next: group.len() as u8,
            ready: more,
        };
    }
    LunState::Running {
        group: group.copy(),
        next: group.len() as u8,
        ready,
    }
}

/// What a LUN does whose group has that number, before a piece that ends then.
fn state_of(alloc: Global, notes: &[Note], number: usize, end: u64, stage: &LunStage) -> LunState
    ensures { result ≡ spec.state_of end (slice_get notes.now number) stage.now }
{
    let is_own = ends_by(notes, number, end);
    match stage {
        LunStage::Free { since } => LunState::Free { since: *since },
        LunStage::Running { group, next, ready } if is_own => LunState::Running {
            group: group.copy(),
            next: *next,
            ready: *ready,
        },
        LunStage::Open { group, more, ready } if is_own => {
            open_state(alloc, group, *more, *ready, members_at(notes, number))
        }
        LunStage::Running { .. } | LunStage::Open { .. } => LunState::Free { since: end },
    }
}

/// What each LUN does, before a piece that ends then.
fn states_of(
    alloc: Global,
    walk: &Walk,
    notes: &[Note],
    end: u64,
) -> Result<Vec<LunState>, AllocError>
    ensures { IfOk result (λ v. v.items ≡ spec.states_from notes.now walk.now.on end 0 walk.now.audit.luns) }
{
    let mut states = Vec::new(alloc);
    for (lun, stage) in walk.audit().luns().iter().enumerate() {
        states.push(state_of(alloc, notes, walk.number_on(lun), end, stage))?;
    }
    Ok(states)
}

/// The piece of these groups, the first of which begins with that line, which comes next.
///
/// # Errors
/// Where memory was refused.
pub(crate) fn cut_piece(
    alloc: Global,
    walk: &Walk,
    notes: &[Note],
    groups: &[Note],
    line: u64,
) -> Result<Cut, AllocError>
    ensures { IfOk result (λ c. c ≡ spec.cut_at notes.now walk.now groups.now line) }
{
    let end = end_of(groups);
    Ok(Cut {
        line,
        bus_free: walk.audit().bus_free(),
        luns: states_of(alloc, walk, notes, end)?,
        wants: wants_of(alloc, groups)?,
        end,
    })
}

//! What is noted of each group of a log.

ghost use Rattle.std.specs.Prelude.{◌≡◌, ◌≤◌, IfOk, OnOk, length, slice_get};
ghost use Rattle.onfi_gap.specs.Following as spec;

use crate::walk::{LUNS, Walk};
use arrayvec::ArrayVec;
use onfi_audit::{Line, LunStage};
use onfi_request::Want;
use std::alloc::{AllocError, Global};
use std::marker::Model;

/// A group of a log, or what a LUN ran as the log began. Times are ns of the channel's clock.
#[derive(Drop)]
pub(crate) struct Note {
    /// Its members in their order, where the log has their commands.
    pub(crate) members: ArrayVec<Want, 4>,
    /// Whether its last phase has come.
    pub(crate) is_over: bool,
    /// When its last phase so far ends.
    pub(crate) end: u64,
}

impl Model for Note {
    ghost use Rattle.onfi_gap.specs.Following.{Noted};

    ghost Value = { Noted };

    ghost view = { λ n. record { members = n.members.items; is_over = n.is_over; end = n.end } };
}

impl Note {
    /// A group of which nothing is noted.
    fn fresh() -> Note
        ensures { result ≡ spec.fresh }
    {
        Note {
            members: ArrayVec::new(),
            is_over: false,
            end: 0,
        }
    }

    /// A phase of it came last, which was that LUN's.
    fn add(&mut self, walk: &Walk, lun: usize)
        ensures { self.new ≡ spec.with_phase walk.now.audit.bus_free (slice_get walk.now.audit.luns lun) self.old }
    {
        self.end = walk.audit().bus_free();
        match walk.audit().luns().get(lun) {
            Some(LunStage::Free { .. }) => self.is_over = true,
            Some(LunStage::Open { group, .. }) => {
                self.members = ArrayVec::try_from(group.members()).unwrap();
            }
            Some(LunStage::Running { .. }) | None => {}
        }
    }
}

/// Of each LUN what it may run as a log begins.
fn first_notes(alloc: Global) -> Result<Vec<Note>, AllocError>
    ensures { IfOk result (λ v. v.items ≡ spec.all_fresh 8) }
{
    let mut notes = Vec::new(alloc);
    for _lun in 0..LUNS {
        notes.push(Note::fresh())?;
    }
    Ok(notes)
}

/// Notes a phase of that LUN, which came last.
fn put(notes: &mut Vec<Note>, walk: &Walk, lun: usize) -> Result<(), AllocError>
    ensures value { OnOk result (notes.new.items ≡ spec.noted notes.old.items walk.now lun) }
    ensures kept { length notes.old.items ≤ length notes.new.items }
{
    let at = walk.number_on(lun);
    if at == notes.len() {
        notes.push(Note::fresh())?;
    }
    if at < notes.len() {
        notes[at].add(walk, lun);
    }
    Ok(())
}

/// What is noted of each group of a log, by their numbers.
///
/// # Errors
/// Where memory was refused, or a line may not come.
pub(crate) fn note_groups(
    alloc: Global,
    mut walk: Walk,
    lines: &[Line],
) -> Result<Vec<Note>, AllocError>
    ensures value { IfOk result (λ v. v.items ≡ spec.notes_of walk lines.now) }
    ensures first { IfOk result (λ v. 8 ≤ length v.items) }
{
    let mut notes = first_notes(alloc)?;
    for line in lines {
        walk.step(line)?;
        put(&mut notes, &walk, usize::from(line.lun))?;
    }
    Ok(notes)
}

//! The members of a group, by their numbers.
ghost use Rattle.std.specs.Prelude.{◌≡◌, ◌≤◌, ◌==◌, length, map, find, option_map};
ghost use Rattle.onfi_script.specs.PlanLine as spec;

use onfi_group::Group;
use onfi_request::Want;
use onfi_timing::Kind;
use smallvec::SmallVec;
use std::alloc::Global;

/// The want of that number.
fn find_want(wants: &[Want], id: u64) -> Option<&Want>
    ensures { option_map (λ w. w.now) result ≡ find (λ w. w.id == id) wants.now }
{
    wants.iter().find(|want| want.id == id)
}

/// The want of that number, else one that no problem with these wants has.
fn want_named(wants: &[Want], id: u64) -> Want
    ensures { result ≡ spec.want_named wants.now id }
{
    match find_want(wants, id) {
        Some(want) => *want,
        None => Want {
            id,
            kind: Kind::Read,
            lun: 0,
            plane: 0,
            block: 0,
            page: 0,
        },
    }
}

/// The group of the wants of these numbers; a number that none of them has stands for a want that no problem with these
/// wants has.
pub fn group_named(alloc: Global, wants: &[Want], ids: &[u64]) -> Group
    requires some { 1 ≤ length ids.now }
    requires few { length ids.now ≤ 4 }
    ensures { result ≡ map (spec.want_named wants.now) ids.now }
{
    let mut members = SmallVec::<Want, 4>::new(alloc);
    for id in ids {
        members.push_reserved(want_named(wants, *id));
    }
    Group::of(alloc, members.as_slice())
}
